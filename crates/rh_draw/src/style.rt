//! How the parts of a picture look, on light and on dark pages.

/// The style of a picture. No mark differs from another by its colour alone.
const STYLE: &str = "<style>
svg{max-width:100%;height:auto}
text{font-family:sans-serif;font-size:13px;fill:#1f2328}
.page{fill:#ffffff}
.title{font-size:17px;font-weight:bold}
.caption{font-weight:bold}
.word{text-anchor:middle}
.value{text-anchor:middle;font-size:13px}
.long{text-anchor:middle;font-size:8px}
.cut{text-anchor:middle;font-size:11px}
.small,.number{text-anchor:middle;font-size:10px;fill:#59636e}
.number.long{font-size:6.5px}
.number.longest{font-size:3.6px}
.address{font-size:14px;font-weight:bold}
.note{text-anchor:end;font-size:11px;fill:#59636e}
.object{fill:#ffffff;fill-opacity:.82;stroke:#1f2328;stroke-width:2.2}
.cell,.missing,.free,.root-box{fill:none;stroke:#a8b1ba}
.free{stroke-dasharray:2 3}
.held{fill:#a9d0ff;fill-opacity:.8;stroke:#a8b1ba}
.old{fill:url(#hatch);stroke:#a8b1ba}
.hatch{stroke:#e8a04c;stroke-width:2.4}
.legend text{font-size:12px}
.past{text-decoration:line-through}
.root,.reference,.placed{fill:none;stroke-width:1.6}
.root,.reference{stroke:#0a5bc4;marker-end:url(#tip)}
.placed{stroke:#7a3fc4;stroke-dasharray:6 4;marker-end:url(#placed-tip)}
.tip,.used{fill:#0a5bc4}
.placed-tip,.placed-words{fill:#7a3fc4}
.scan{fill:#1a7f37}
.end{stroke:#1f2328;stroke-width:4}
@media (prefers-color-scheme:dark){
text{fill:#e6edf3}
.page{fill:#0d1117}
.small,.number,.note{fill:#9da7b1}
.object{fill:#0d1117}
.object,.end{stroke:#e6edf3}
.cell,.missing,.free,.root-box,.held,.old{stroke:#6e7681}
.held{fill:#17447c}
.hatch{stroke:#8f6414}
.root,.reference{stroke:#6cb0ff}
.tip,.used{fill:#6cb0ff}
.placed{stroke:#c297ff}
.placed-tip,.placed-words{fill:#c297ff}
.scan{fill:#3fb950}
}
</style>
<defs>
<marker id='tip' viewBox='0 0 8 8' refX='7' refY='4' markerWidth='8' markerHeight='8' \
markerUnits='userSpaceOnUse' orient='auto'><path class='tip' d='M0 0L8 4L0 8z'/></marker>
<marker id='placed-tip' viewBox='0 0 8 8' refX='7' refY='4' markerWidth='9' markerHeight='9' \
markerUnits='userSpaceOnUse' orient='auto'><path class='placed-tip' d='M0 0L8 4L0 8z'/></marker>
<pattern id='hatch' width='7' height='7' patternUnits='userSpaceOnUse' \
patternTransform='rotate(45)'><path class='hatch' d='M0 0V7'/></pattern>
</defs>
";

/// The style of a picture, with the tips of arrows and the hatch.
pub fn style<'a>() -> &'a str {
    STYLE
}
