//! Laws of command lines: how each is read, and what may not stand together. The function does
//! nothing: its contract is the law.

ghost use Rattle.std.specs.Prelude.{◌≡◌, ◌-◌, ◌^◌, List, ℕ, [], ◌∷◌, Some, None, Ok, Err, IsErr, IsFalse, IsTrue, Contains, true, false, codes};
ghost use Rattle.rh_choices.specs.declared.limits.HeapWords.{HeapWords as HeapWordsOf};
ghost use Rattle.rh_choices.specs.declared.telling.Telling.{Telling as TellingOf};
ghost use Rattle.rh_command_line.specs.Ask.{command_and_file_of, explains_of, is_taken, out_of, stands_on, viewed_of};
ghost use Rattle.rh_command_line.specs.Table.{Argument, CommandState, command_with, has_options, run_arguments, table};
ghost use Rattle.rh_command_line.specs.declared.ask.Shell.{Shell as ShellOf};
ghost use Rattle.rh_command_line.specs.declared.ask.Subcommand.{Subcommand as SubcommandOf};
ghost use Rattle.rh_command_line.specs.declared.fault.CommandLineFault.{CommandLineFault as FaultOf};

/// Command lines, and what they ask: a subcommand and its file, where `-` is a file's name too. A
/// line without a subcommand, without a file, with an unknown subcommand or with a part too many
/// isn't taken.
pub fn worked_command_lines()
    // Where help is asked for, each command has its options.
    ensures help { (name : List ℕ) → IsTrue (has_options (codes "help") name) }
    ensures run { command_and_file_of (codes "rheap" ∷ codes "run" ∷ codes "x" ∷ [])
        ≡ Ok (SubcommandOf.Run, codes "x") }
    ensures replay { command_and_file_of (codes "rheap" ∷ codes "replay" ∷ codes "x" ∷ [])
        ≡ Ok (SubcommandOf.Replay, codes "x") }
    ensures dump { command_and_file_of (codes "rheap" ∷ codes "dump" ∷ codes "x" ∷ [])
        ≡ Ok (SubcommandOf.Dump, codes "x") }
    ensures dot { command_and_file_of
        (codes "rheap" ∷ codes "dump" ∷ codes "--dot" ∷ codes "x" ∷ [])
        ≡ Ok (SubcommandOf.Dot, codes "x") }
    ensures dot_run { false
        ≡ is_taken (codes "rheap" ∷ codes "run" ∷ codes "x" ∷ codes "--dot" ∷ []) }
    ensures dot_twice { false ≡ is_taken (codes "rheap" ∷ codes "dump" ∷ codes "x"
        ∷ codes "--dot" ∷ codes "--dot" ∷ []) }
    ensures snapshot { command_and_file_of (codes "rheap" ∷ codes "dump" ∷ codes "x"
        ∷ codes "--heapsnapshot" ∷ codes "o" ∷ []) ≡ Ok (SubcommandOf.Snapshot, codes "x") }
    ensures snapshot_out { out_of (codes "rheap" ∷ codes "dump" ∷ codes "x"
        ∷ codes "--heapsnapshot=o" ∷ []) ≡ Some (codes "o") }
    ensures snapshot_crossed { command_and_file_of (codes "rheap" ∷ codes "dump" ∷ codes "x"
        ∷ codes "--heapsnapshot=x" ∷ []) ≡ Err FaultOf.Crossed }
    ensures snapshot_dot { command_and_file_of (codes "rheap" ∷ codes "dump" ∷ codes "x"
        ∷ codes "--dot" ∷ codes "--heapsnapshot=o" ∷ []) ≡ Err FaultOf.Forms }
    ensures why { command_and_file_of (codes "rheap" ∷ codes "dump" ∷ codes "x"
        ∷ codes "--why" ∷ codes "7" ∷ []) ≡ Ok (SubcommandOf.Why 7, codes "x") }
    ensures why_at { command_and_file_of (codes "rheap" ∷ codes "dump" ∷ codes "--why=@7"
        ∷ codes "x" ∷ []) ≡ Ok (SubcommandOf.Why 7, codes "x") }
    ensures why_json { command_and_file_of (codes "rheap" ∷ codes "dump" ∷ codes "x"
        ∷ codes "--json" ∷ codes "--why=7" ∷ []) ≡ Err FaultOf.Forms }
    ensures why_no_number { command_and_file_of (codes "rheap" ∷ codes "dump" ∷ codes "x"
        ∷ codes "--why=@@7" ∷ []) ≡ Err FaultOf.Object }
    ensures draw { command_and_file_of (codes "rheap" ∷ codes "draw" ∷ codes "x" ∷ [])
        ≡ Ok (SubcommandOf.Draw None, codes "x") }
    ensures draw_line { command_and_file_of
        (codes "rheap" ∷ codes "draw" ∷ codes "x" ∷ codes "--line" ∷ codes "7" ∷ [])
        ≡ Ok (SubcommandOf.Draw (Some 7), codes "x") }
    ensures draw_line_0 { command_and_file_of
        (codes "rheap" ∷ codes "draw" ∷ codes "x" ∷ codes "--line=0" ∷ []) ≡ Err FaultOf.Line }
    ensures draw_run { false
        ≡ is_taken (codes "rheap" ∷ codes "run" ∷ codes "x" ∷ codes "--line=7" ∷ []) }
    ensures session { command_and_file_of (codes "rheap" ∷ codes "shell" ∷ [])
        ≡ Ok (SubcommandOf.Session, codes "-") }
    ensures lisp { command_and_file_of (codes "rheap" ∷ codes "lisp" ∷ codes "x" ∷ [])
        ≡ Ok (
          SubcommandOf.Lisp (record {
            heap = HeapWordsOf.UpTo 16777216;
            steps = 2 ^ 64 - 1;
          }),
          codes "x",
        ) }
    ensures lisp_heap { command_and_file_of (codes "rheap" ∷ codes "lisp" ∷ codes "--heap"
        ∷ codes "9000" ∷ codes "--steps=7" ∷ codes "x" ∷ [])
        ≡ Ok (SubcommandOf.Lisp (record { heap = HeapWordsOf.Just 9000; steps = 7 }), codes "x") }
    ensures lisp_grow { command_and_file_of
        (codes "rheap" ∷ codes "lisp" ∷ codes "--grow=9000" ∷ codes "x" ∷ [])
        ≡ Ok (
          SubcommandOf.Lisp (record { heap = HeapWordsOf.UpTo 9000; steps = 2 ^ 64 - 1 }),
          codes "x",
        ) }
    ensures lisp_heaps { command_and_file_of (codes "rheap" ∷ codes "lisp" ∷ codes "x"
        ∷ codes "--heap=9000" ∷ codes "--grow=9000" ∷ []) ≡ Err FaultOf.Words }
    ensures lisp_steps { command_and_file_of (codes "rheap" ∷ codes "lisp" ∷ codes "x"
        ∷ codes "--steps=many" ∷ []) ≡ Err FaultOf.Steps }
    ensures lisp_session { command_and_file_of (codes "rheap" ∷ codes "lisp"
        ∷ codes "--grow=9000" ∷ []) ≡ Ok (
          SubcommandOf.LispSession (record { heap = HeapWordsOf.UpTo 9000; steps = 2 ^ 64 - 1 }),
          codes "-",
        ) }
    ensures lisp_cycles { command_and_file_of (codes "rheap" ∷ codes "lisp" ∷ codes "x"
        ∷ codes "--heap=9000" ∷ codes "--cycles=-" ∷ []) ≡ Ok (
          SubcommandOf.Lisp (record { heap = HeapWordsOf.Just 9000; steps = 2 ^ 64 - 1 }),
          codes "x",
        ) }
    ensures lisp_viewed { viewed_of (codes "rheap" ∷ codes "lisp" ∷ codes "x"
        ∷ codes "--cycles=c" ∷ []) ≡ record {
          telling = TellingOf.Answers;
          cycles = Some (codes "c");
          history = None;
          events = false;
        } }
    ensures lisp_session_cycles { command_and_file_of (codes "rheap" ∷ codes "lisp"
        ∷ codes "--cycles=c" ∷ []) ≡ Err FaultOf.SessionCycles }
    ensures lisp_crossed { command_and_file_of (codes "rheap" ∷ codes "lisp" ∷ codes "x"
        ∷ codes "--cycles=x" ∷ []) ≡ Err FaultOf.Crossed }
    ensures lisp_mark { false
        ≡ is_taken (codes "rheap" ∷ codes "lisp" ∷ codes "x" ∷ codes "--mark=7" ∷ []) }
    ensures session_file { false ≡ is_taken (codes "rheap" ∷ codes "shell" ∷ codes "x" ∷ []) }
    ensures plain { viewed_of (codes "rheap" ∷ codes "run" ∷ codes "x" ∷ [])
        ≡ record {
          telling = TellingOf.Answers;
          cycles = None;
          history = None;
          events = false;
        } }
    ensures viewed { viewed_of (codes "rheap" ∷ codes "run" ∷ codes "x" ∷ codes "--json"
        ∷ codes "--history=h" ∷ codes "--cycles" ∷ codes "c" ∷ []) ≡ record {
          telling = TellingOf.Json;
          cycles = Some (codes "c");
          history = Some (codes "h");
          events = false;
        } }
    ensures events { viewed_of (codes "rheap" ∷ codes "run" ∷ codes "x"
        ∷ codes "--cycles=c" ∷ codes "--trace-events" ∷ []) ≡ record {
          telling = TellingOf.Answers;
          cycles = Some (codes "c");
          history = None;
          events = true;
        } }
    ensures events_alone { command_and_file_of (codes "rheap" ∷ codes "run" ∷ codes "x"
        ∷ codes "--trace-events" ∷ []) ≡ Err FaultOf.Events }
    ensures echo_json { command_and_file_of (codes "rheap" ∷ codes "replay" ∷ codes "x"
        ∷ codes "--echo" ∷ codes "--json" ∷ []) ≡ Err FaultOf.Views }
    ensures dot_json { command_and_file_of (codes "rheap" ∷ codes "dump" ∷ codes "x"
        ∷ codes "--dot" ∷ codes "--json" ∷ []) ≡ Err FaultOf.Views }
    ensures echo_output { command_and_file_of (codes "rheap" ∷ codes "run" ∷ codes "x"
        ∷ codes "--echo" ∷ codes "--cycles=-" ∷ []) ≡ Err FaultOf.Views }
    ensures crossed { command_and_file_of (codes "rheap" ∷ codes "run" ∷ codes "x"
        ∷ codes "--history=x" ∷ []) ≡ Err FaultOf.Crossed }
    ensures crossed_texts { command_and_file_of (codes "rheap" ∷ codes "run" ∷ codes "x"
        ∷ codes "--history=h" ∷ codes "--cycles=h" ∷ []) ≡ Err FaultOf.Crossed }
    ensures piped { command_and_file_of (codes "rheap" ∷ codes "run" ∷ codes "-"
        ∷ codes "--history=-" ∷ []) ≡ Ok (SubcommandOf.Run, codes "-") }
    ensures echo_dump { false
        ≡ is_taken (codes "rheap" ∷ codes "dump" ∷ codes "x" ∷ codes "--echo" ∷ []) }
    ensures completions { command_and_file_of
        (codes "rheap" ∷ codes "completions" ∷ codes "zsh" ∷ [])
        ≡ Ok (SubcommandOf.Completions ShellOf.Zsh, codes "-") }
    ensures no_shell { command_and_file_of
        (codes "rheap" ∷ codes "completions" ∷ codes "sh" ∷ []) ≡ Err FaultOf.Shell }
    ensures completions_bare { is_taken (codes "rheap" ∷ codes "completions" ∷ []) ≡ false }
    ensures explain { IsTrue (explains_of
        (codes "rheap" ∷ codes "run" ∷ codes "x" ∷ codes "--explain" ∷ [])) }
    ensures unexplained { explains_of (codes "rheap" ∷ codes "run" ∷ codes "x" ∷ []) ≡ false }
    ensures input { command_and_file_of (codes "rheap" ∷ codes "run" ∷ codes "-" ∷ [])
        ≡ Ok (SubcommandOf.Run, codes "-") }
    ensures paced { command_and_file_of
        (codes "rheap" ∷ codes "run" ∷ codes "x" ∷ codes "--paced" ∷ [])
        ≡ Ok (SubcommandOf.RunPaced None, codes "x") }
    ensures mark { command_and_file_of (codes "rheap" ∷ codes "run" ∷ codes "--paced"
        ∷ codes "--mark" ∷ codes "7" ∷ codes "x" ∷ [])
        ≡ Ok (SubcommandOf.RunPaced (Some 7), codes "x") }
    ensures mark_0 { command_and_file_of
        (codes "rheap" ∷ codes "run" ∷ codes "x" ∷ codes "--paced" ∷ codes "--mark=0" ∷ [])
        ≡ Ok (SubcommandOf.RunPaced (Some 0), codes "x") }
    ensures mark_alone { command_and_file_of
        (codes "rheap" ∷ codes "run" ∷ codes "x" ∷ codes "--mark=7" ∷ []) ≡ Err FaultOf.Mark }
    ensures no_number { command_and_file_of
        (codes "rheap" ∷ codes "run" ∷ codes "x" ∷ codes "--paced" ∷ codes "--mark=07" ∷ [])
        ≡ Err FaultOf.Mark }
    ensures grow { command_and_file_of (codes "rheap" ∷ codes "run" ∷ codes "--paced"
        ∷ codes "--grow" ∷ codes "9000" ∷ codes "x" ∷ [])
        ≡ Ok (SubcommandOf.RunGrowing 9000, codes "x") }
    ensures grow_alone { command_and_file_of
        (codes "rheap" ∷ codes "run" ∷ codes "x" ∷ codes "--grow=9000" ∷ []) ≡ Err FaultOf.Grow }
    ensures grow_mark { command_and_file_of (codes "rheap" ∷ codes "run" ∷ codes "x"
        ∷ codes "--paced" ∷ codes "--mark=7" ∷ codes "--grow=9000" ∷ []) ≡ Err FaultOf.Grow }
    ensures grow_no_number { command_and_file_of
        (codes "rheap" ∷ codes "run" ∷ codes "x" ∷ codes "--paced" ∷ codes "--grow=-1" ∷ [])
        ≡ Err FaultOf.Grow }
    ensures grow_twice { false ≡ is_taken (codes "rheap" ∷ codes "run" ∷ codes "x"
        ∷ codes "--paced" ∷ codes "--grow=8" ∷ codes "--grow=8" ∷ []) }
    ensures grow_threads { false
        ≡ is_taken (codes "rheap" ∷ codes "threads" ∷ codes "x" ∷ codes "--grow=8" ∷ []) }
    ensures paced_replay { false
        ≡ is_taken (codes "rheap" ∷ codes "replay" ∷ codes "x" ∷ codes "--paced" ∷ []) }
    ensures threads { command_and_file_of (codes "rheap" ∷ codes "threads" ∷ codes "x" ∷ [])
        ≡ Ok (SubcommandOf.Threads 2 0, codes "x") }
    ensures replicators { command_and_file_of (codes "rheap" ∷ codes "threads" ∷ codes "x"
        ∷ codes "--idle=65535" ∷ codes "--replicators" ∷ codes "8" ∷ [])
        ≡ Ok (SubcommandOf.Threads 8 65535, codes "x") }
    ensures nine { command_and_file_of
        (codes "rheap" ∷ codes "threads" ∷ codes "x" ∷ codes "--replicators=9" ∷ [])
        ≡ Err FaultOf.Replicators }
    ensures too_idle { command_and_file_of
        (codes "rheap" ∷ codes "threads" ∷ codes "x" ∷ codes "--idle=65536" ∷ [])
        ≡ Err FaultOf.Idle }
    ensures run_replicators { false
        ≡ is_taken (codes "rheap" ∷ codes "run" ∷ codes "x" ∷ codes "--replicators=1" ∷ []) }
    ensures taken { IsTrue (is_taken (codes "rheap" ∷ codes "run" ∷ codes "x" ∷ [])) }
    ensures bare { is_taken (codes "rheap" ∷ []) ≡ false }
    ensures no_file { is_taken (codes "rheap" ∷ codes "run" ∷ []) ≡ false }
    ensures unknown { is_taken (codes "rheap" ∷ codes "grow" ∷ codes "x" ∷ []) ≡ false }
    ensures two_files { false
        ≡ is_taken (codes "rheap" ∷ codes "run" ∷ codes "x" ∷ codes "y" ∷ []) }
{}

/// What the table says may not stand together is refused: an argument without one that it needs, and
/// one beside another that it doesn't stand with.
pub fn what_may_not_stand_together_is_refused()
    ensures needs { (line : List (List ℕ)) (command : CommandState) (argument : Argument)
        (name : List ℕ) → Contains table command → Contains command.arguments argument
        → Contains argument.needs name → IsTrue (stands_on line command argument.rule.id)
        → IsFalse (stands_on line command name) → IsErr (command_and_file_of line) }
    ensures not_with { (line : List (List ℕ)) (command : CommandState) (argument : Argument)
        (name : List ℕ) → Contains table command → Contains command.arguments argument
        → Contains argument.not_with name → IsTrue (stands_on line command argument.rule.id)
        → IsTrue (stands_on line command name) → IsErr (command_and_file_of line) }
    // An option stands where it has a value, and a flag where it is set.
    ensures option { IsTrue (stands_on
        (codes "rheap" ∷ codes "run" ∷ codes "x" ∷ codes "--mark=7" ∷ [])
        (command_with (codes "run") run_arguments) (codes "mark")) }
    ensures flag { IsFalse (stands_on
        (codes "rheap" ∷ codes "run" ∷ codes "x" ∷ codes "--mark=7" ∷ [])
        (command_with (codes "run") run_arguments) (codes "paced")) }
{}
