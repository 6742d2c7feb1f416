//! Laws of the language of traces: what is written is read, and the first fault is named. Each
//! function does nothing: its contract is the law.

ghost use Rattle.std.specs.Prelude.{◌≡◌, ℕ, List, Some, Result, Ok, Err};
ghost use Rattle.rh_text.specs.RawLine.{RawLine, lines_of, raw_text};
ghost use Rattle.rh_text.specs.Stages.{IsFaultless, IsFirst, IsLeast};
ghost use Rattle.rh_layout.specs.declared.command.Command.{Command as CommandOf};
ghost use Rattle.rh_layout.specs.declared.command.Reply.{Reply};
ghost use Rattle.rh_layout.specs.declared.refusal.Refusal.{Refusal};
ghost use Rattle.rh_syntax.specs.CommandAnswers.{answer_text, IsToldAnswer};
ghost use Rattle.rh_syntax.specs.Faults.{command_faults, header_faults, line_faults, trace_faults};
ghost use Rattle.rh_syntax.specs.Line.{line_of};
ghost use Rattle.rh_syntax.specs.Reading.{single_command, trace_of};
ghost use Rattle.rh_syntax.specs.Spelling.{Script, IsScript, HeaderFits, RequestFits, CommandFits, command_text, spell_header, spell_request, spelling};
ghost use Rattle.rh_syntax.specs.TrayName.{tray_name_of, IsTrayName};
ghost use Rattle.rh_syntax.specs.declared.fault.Kind.{Kind as FaultKind};
ghost use Rattle.rh_syntax.specs.declared.fault.TraceFault.{TraceFault as FaultOf};
ghost use Rattle.rh_syntax.specs.declared.line.Header.{Header as HeaderOf};
ghost use Rattle.rh_syntax.specs.declared.line.Line.{Line as LineOf};
ghost use Rattle.rh_syntax.specs.declared.request.Request.{Request as RequestOf};

/// The fault that reading names is the one that comes first in the order of the format: it holds on
/// its line, and any other that holds is on a later line or at a later position of this line. What
/// is read has no fault, and a line without a fault is the spelling of one that fits.
pub fn the_first_fault_is_named()
    ensures first { (bytes : List ℕ) (fault : FaultOf) → trace_of bytes ≡ Err fault
        → IsFirst (trace_faults (lines_of bytes)) fault.line fault.kind }
    ensures none { (bytes : List ℕ) (script : Script) → trace_of bytes ≡ Ok script
        → (n : ℕ) → IsFaultless (trace_faults (lines_of bytes) n) }
    ensures spelled_header { (raw : RawLine) → IsFaultless (header_faults raw)
        → (h : HeaderOf) × HeaderFits h × (raw_text raw ≡ spell_header h) }
    ensures spelled_line { (n : ℕ) (raw : RawLine) → IsFaultless (line_faults n raw)
        → (r : RequestOf) × RequestFits r × (raw_text raw ≡ spell_request r) }
{}

/// What a trace is spelled as is read as that trace, and nothing else is read as it.
pub fn what_is_spelled_is_read()
    ensures spelled { (script : Script) → IsScript script → trace_of (spelling script) ≡ Ok script }
    ensures read { (bytes : List ℕ) (script : Script) → trace_of bytes ≡ Ok script
        → IsScript script × (bytes ≡ spelling script) }
{}

/// What a single command line is spelled as is read as that command, and nothing else is read as
/// it. The fault that reading names is the one that comes first in the order of the format, and
/// what is read has no fault.
pub fn a_single_command_is_read_as_spelled()
    ensures spelled { (owner : ℕ) (command : CommandOf) → CommandFits owner command
        → single_command (command_text owner command) ≡ Ok (owner, command) }
    ensures read { (line : List ℕ) (owner : ℕ) (command : CommandOf)
        → single_command line ≡ Ok (owner, command)
        → CommandFits owner command × (line ≡ command_text owner command) }
    ensures first { (line : List ℕ) (kind : FaultKind) → single_command line ≡ Err kind
        → IsLeast (command_faults line) kind }
    ensures none { (line : List ℕ) (owned : ℕ × CommandOf) → single_command line ≡ Ok owned
        → IsFaultless (command_faults line) }
{}

/// Each line is of one request alone: two requests with the same line are the same, and each line
/// is that of a request. So a line tells all that its request does.
pub fn each_line_is_of_one_request()
    ensures alone { (a b : RequestOf) → line_of a ≡ line_of b → a ≡ b }
    ensures all { (line : LineOf) → (request : RequestOf) × (line_of request ≡ line) }
{}

/// What is read as the name of a tray is one, and each name is read as itself.
pub fn the_names_of_trays_are_read()
    ensures read { (part name : List ℕ) → tray_name_of part ≡ Some name
        → (name ≡ part) × IsTrayName name }
    ensures named { (name : List ℕ) → IsTrayName name → tray_name_of name ≡ Some name }
{}

/// Each text is of one answer to a command alone: two answers with the same text, whose numbers
/// fit as those of a heap do, are the same. So a text tells all that its answer does.
pub fn each_text_is_of_one_answer()
    ensures { (a b : Result Reply Refusal) → IsToldAnswer a → IsToldAnswer b
        → answer_text a ≡ answer_text b → a ≡ b }
{}
