//! What the marks of a cycle mean.

use crate::page::Page;
use rh_layout::OutOfMemory;
use std::alloc::Allocator;

/// The five marks, each with what it says.
const MARKS: &str = "\
<rect class='held' x='0' y='0' width='26' height='16'/><text x='32' y='13'>held</text>
<rect class='missing' x='76' y='0' width='26' height='16'/><text x='108' y='13'>not held</text>
<rect class='old' x='178' y='0' width='26' height='16'/>\
<text x='210' y='13'>held, stored to since</text>
<path class='placed' d='M364 8h38'/><text x='410' y='13'>object to its replica</text>
<text class='past' x='562' y='13'>entry</text><text x='604' y='13'>looked at by a deal</text>
";

/// The five marks of a cycle.
fn marks<'a>() -> &'a str {
    MARKS
}

/// Puts the legend.
pub fn put_legend<B: Allocator>(svg: &mut String<B>, page: Page) -> Result<(), OutOfMemory> {
    let (y, marks) = (page.legend, marks());
    write!(
        svg,
        "<g class='legend' transform='translate(16 {y})'>\n{marks}</g>\n"
    )?;
    Ok(())
}
