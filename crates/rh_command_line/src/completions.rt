//! The completions for shells, made by share/make.

/// The completions for bash.
pub const BASH: &str = "\
# Completions of rheap for bash. Made by share/make of what the program says of itself.
_rheap() {
    local word=${COMP_WORDS[COMP_CWORD]} before=${COMP_WORDS[COMP_CWORD - 1]} options= valued=
    COMPREPLY=()
    if [ \"$COMP_CWORD\" = 1 ]; then
        mapfile -t COMPREPLY < <(compgen -W 'run threads replay dump draw shell lisp completions help -h --help -V --version' -- \"$word\")
        return
    fi
    case ${COMP_WORDS[1]} in
    run) options='--explain --paced --mark --grow --cycles --trace-events --history --echo --json -h --help' valued='--mark --grow' ;;
    threads) options='--explain --replicators --idle -h --help' valued='--replicators --idle' ;;
    replay) options='--explain --echo --json -h --help' valued='' ;;
    dump) options='--explain --dot --heapsnapshot --why --json -h --help' valued='--why' ;;
    draw) options='--explain --line -h --help' valued='--line' ;;
    shell) options='-h --help' valued='' ;;
    lisp) options='--heap --grow --steps --cycles --trace-events --explain -h --help' valued='--heap --grow --steps' ;;
    completions) options='-h --help' valued='' ;;
    help)
        mapfile -t COMPREPLY < <(compgen -W 'run threads replay dump draw shell lisp completions' -- \"$word\")
        return
        ;;
    *) return ;;
    esac
    case \" $valued \" in
    *\" $before \"*) return ;;
    esac
    case ${COMP_WORDS[1]}:$word in
    completions:[!-]* | completions:)
        mapfile -t COMPREPLY < <(compgen -W 'bash zsh fish' -- \"$word\")
        return
        ;;
    shell:[!-]* | shell:) return ;;
    esac
    case $word in
    -*) mapfile -t COMPREPLY < <(compgen -W \"$options\" -- \"$word\") ;;
    *) mapfile -t COMPREPLY < <(compgen -f -- \"$word\") ;;
    esac
}
complete -o filenames -F _rheap rheap
";

/// The completions for zsh.
pub const ZSH: &str = "\
#compdef rheap
# Completions of rheap for zsh. Made by share/make of what the program says of itself.
local context state state_descr line
typeset -A opt_args
local -a commands

_arguments -C \\
    '(- *)'{-h,--help}'[Print help]' \\
    '(- *)'{-V,--version}'[Print version]' \\
    '1: :->command' \\
    '*:: :->argument' && return
case $state in
command)
    commands=(
        'run:Runs a trace, and prints an answer for each of its lines'
        'threads:Plays a trace of commands in threads, and prints the history of the calls'
        'replay:Checks a history against a heap that never moves its objects, and reports on it'
        'dump:Reads a dump, and prints how many roots and objects it has'
        'draw:Draws the heap of a trace after one of its lines, in SVG'
        'shell:Answers the lines of a trace as they are typed, and draws the heap'
        'lisp:Runs a program of a small Scheme, or holds a session of it'
        'completions:Prints completions of the program'\\''s command lines for a shell'
        'help:Print this message or the help of the given subcommand(s)'
    )
    _describe -t commands 'command' commands
    ;;
argument)
    case $words[1] in
    run)
        _arguments \\
            '--explain[Shows the part of a line that is wrong, and says what may stand there]' \\
            '--paced[Runs a trace of commands alone, on a heap that collects by itself]' \\
            '--mark=[With --paced\\: a cycle begins where fewer than N words are free]:N: ' \\
            '--grow=[With --paced, without --mark\\: each of its spaces grows to at most N words]:N: ' \\
            '--cycles=[Writes a line for each cycle to the file OUT; - is standard output]:OUT:_files' \\
            '--trace-events[With --cycles\\: writes trace events, which Perfetto shows, and not lines]' \\
            '--history=[Writes the history of the commands to the file OUT; - is standard output]:OUT:_files' \\
            '--echo[Prints each line'\\''s number, its text and its answer, with tabs between]' \\
            '--json[Prints objects of JSON, one a line]' \\
            '(- *)'{-h,--help}'[Print help]' \\
            '1:FILE:_files'
        ;;
    threads)
        _arguments \\
            '--explain[Shows the part of a line that is wrong, and says what may stand there]' \\
            '--replicators=[The replicators, in threads of their own\\: 0 to 8, 2 where it isn'\\''t said]:N: ' \\
            '--idle=[The idle words of an increment in a cycle\\: 0 to 65535, 0 if it isn'\\''t said]:N: ' \\
            '(- *)'{-h,--help}'[Print help]' \\
            '1:FILE:_files'
        ;;
    replay)
        _arguments \\
            '--explain[Shows the part of a line that is wrong, and says what may stand there]' \\
            '--echo[Prints each line'\\''s number, its text and its answer, with tabs between]' \\
            '--json[Prints objects of JSON, one a line]' \\
            '(- *)'{-h,--help}'[Print help]' \\
            '1:FILE:_files'
        ;;
    dump)
        _arguments \\
            '--explain[Shows the part of a line that is wrong, and says what may stand there]' \\
            '--dot[Prints its graph instead, as a text for Graphviz]' \\
            '--heapsnapshot=[Writes its graph instead, as a heap snapshot, to the file OUT; - is standard output]:OUT:_files' \\
            '--why=[Prints a shortest path from a root to this object instead\\: 7 or @7 is object @7]:ADDRESS: ' \\
            '--json[Prints objects of JSON, one a line]' \\
            '(- *)'{-h,--help}'[Print help]' \\
            '1:FILE:_files'
        ;;
    draw)
        _arguments \\
            '--explain[Shows the part of a line that is wrong, and says what may stand there]' \\
            '--line=[The line after which it is drawn, from 1; the last if it isn'\\''t said]:N: ' \\
            '(- *)'{-h,--help}'[Print help]' \\
            '1:FILE:_files'
        ;;
    shell)
        _arguments \\
            '(- *)'{-h,--help}'[Print help]' \\
            && return
        ;;
    lisp)
        _arguments \\
            '--heap=[Each of its spaces has so many words, and keeps them]:WORDS: ' \\
            '--grow=[Each of its spaces grows to at most so many words; 16777216 if it isn'\\''t said]:WORDS: ' \\
            '--steps=[The instructions that may be done, 0 to 4294967295; 2^64 - 1 without it]:N: ' \\
            '--cycles=[Writes a line for each cycle of its heap to the file OUT; - is standard output]:OUT:_files' \\
            '--trace-events[With --cycles\\: writes trace events, which Perfetto shows, and not lines]' \\
            '--explain[Shows the part of a line that is wrong, and says what may stand there]' \\
            '(- *)'{-h,--help}'[Print help]' \\
            '1:FILE:_files'
        ;;
    completions)
        _arguments \\
            '(- *)'{-h,--help}'[Print help]' \\
            '1:SHELL:(bash zsh fish)'
        ;;
    help) _values 'command' run threads replay dump draw shell lisp completions ;;
    esac
    ;;
esac
";

/// The completions for fish.
pub const FISH: &str = "\
# Completions of rheap for fish. Made by share/make of what the program says of itself.
complete -c rheap -n __fish_use_subcommand -f -a run -d 'Runs a trace, and prints an answer for each of its lines'
complete -c rheap -n __fish_use_subcommand -f -a threads -d 'Plays a trace of commands in threads, and prints the history of the calls'
complete -c rheap -n __fish_use_subcommand -f -a replay -d 'Checks a history against a heap that never moves its objects, and reports on it'
complete -c rheap -n __fish_use_subcommand -f -a dump -d 'Reads a dump, and prints how many roots and objects it has'
complete -c rheap -n __fish_use_subcommand -f -a draw -d 'Draws the heap of a trace after one of its lines, in SVG'
complete -c rheap -n __fish_use_subcommand -f -a shell -d 'Answers the lines of a trace as they are typed, and draws the heap'
complete -c rheap -n __fish_use_subcommand -f -a lisp -d 'Runs a program of a small Scheme, or holds a session of it'
complete -c rheap -n __fish_use_subcommand -f -a completions -d 'Prints completions of the program\\'s command lines for a shell'
complete -c rheap -n __fish_use_subcommand -f -a help -d 'Print this message or the help of the given subcommand(s)'
complete -c rheap -n '__fish_use_subcommand' -s h -l help -d 'Print help'
complete -c rheap -n '__fish_use_subcommand' -s V -l version -d 'Print version'
complete -c rheap -n '__fish_seen_subcommand_from help' -f -a 'run threads replay dump draw shell lisp completions'
complete -c rheap -n '__fish_seen_subcommand_from run' -l explain -d 'Shows the part of a line that is wrong, and says what may stand there'
complete -c rheap -n '__fish_seen_subcommand_from run' -l paced -d 'Runs a trace of commands alone, on a heap that collects by itself'
complete -c rheap -n '__fish_seen_subcommand_from run' -l mark -x -d 'With --paced: a cycle begins where fewer than N words are free'
complete -c rheap -n '__fish_seen_subcommand_from run' -l grow -x -d 'With --paced, without --mark: each of its spaces grows to at most N words'
complete -c rheap -n '__fish_seen_subcommand_from run' -l cycles -r -d 'Writes a line for each cycle to the file OUT; - is standard output'
complete -c rheap -n '__fish_seen_subcommand_from run' -l trace-events -d 'With --cycles: writes trace events, which Perfetto shows, and not lines'
complete -c rheap -n '__fish_seen_subcommand_from run' -l history -r -d 'Writes the history of the commands to the file OUT; - is standard output'
complete -c rheap -n '__fish_seen_subcommand_from run' -l echo -d 'Prints each line\\'s number, its text and its answer, with tabs between'
complete -c rheap -n '__fish_seen_subcommand_from run' -l json -d 'Prints objects of JSON, one a line'
complete -c rheap -n '__fish_seen_subcommand_from run' -s h -l help -d 'Print help'
complete -c rheap -n '__fish_seen_subcommand_from threads' -l explain -d 'Shows the part of a line that is wrong, and says what may stand there'
complete -c rheap -n '__fish_seen_subcommand_from threads' -l replicators -x -d 'The replicators, in threads of their own: 0 to 8, 2 where it isn\\'t said'
complete -c rheap -n '__fish_seen_subcommand_from threads' -l idle -x -d 'The idle words of an increment in a cycle: 0 to 65535, 0 if it isn\\'t said'
complete -c rheap -n '__fish_seen_subcommand_from threads' -s h -l help -d 'Print help'
complete -c rheap -n '__fish_seen_subcommand_from replay' -l explain -d 'Shows the part of a line that is wrong, and says what may stand there'
complete -c rheap -n '__fish_seen_subcommand_from replay' -l echo -d 'Prints each line\\'s number, its text and its answer, with tabs between'
complete -c rheap -n '__fish_seen_subcommand_from replay' -l json -d 'Prints objects of JSON, one a line'
complete -c rheap -n '__fish_seen_subcommand_from replay' -s h -l help -d 'Print help'
complete -c rheap -n '__fish_seen_subcommand_from dump' -l explain -d 'Shows the part of a line that is wrong, and says what may stand there'
complete -c rheap -n '__fish_seen_subcommand_from dump' -l dot -d 'Prints its graph instead, as a text for Graphviz'
complete -c rheap -n '__fish_seen_subcommand_from dump' -l heapsnapshot -r -d 'Writes its graph instead, as a heap snapshot, to the file OUT; - is standard output'
complete -c rheap -n '__fish_seen_subcommand_from dump' -l why -x -d 'Prints a shortest path from a root to this object instead: 7 or @7 is object @7'
complete -c rheap -n '__fish_seen_subcommand_from dump' -l json -d 'Prints objects of JSON, one a line'
complete -c rheap -n '__fish_seen_subcommand_from dump' -s h -l help -d 'Print help'
complete -c rheap -n '__fish_seen_subcommand_from draw' -l explain -d 'Shows the part of a line that is wrong, and says what may stand there'
complete -c rheap -n '__fish_seen_subcommand_from draw' -l line -x -d 'The line after which it is drawn, from 1; the last if it isn\\'t said'
complete -c rheap -n '__fish_seen_subcommand_from draw' -s h -l help -d 'Print help'
complete -c rheap -n '__fish_seen_subcommand_from shell' -s h -l help -d 'Print help'
complete -c rheap -n '__fish_seen_subcommand_from shell' -f
complete -c rheap -n '__fish_seen_subcommand_from lisp' -l heap -x -d 'Each of its spaces has so many words, and keeps them'
complete -c rheap -n '__fish_seen_subcommand_from lisp' -l grow -x -d 'Each of its spaces grows to at most so many words; 16777216 if it isn\\'t said'
complete -c rheap -n '__fish_seen_subcommand_from lisp' -l steps -x -d 'The instructions that may be done, 0 to 4294967295; 2^64 - 1 without it'
complete -c rheap -n '__fish_seen_subcommand_from lisp' -l cycles -r -d 'Writes a line for each cycle of its heap to the file OUT; - is standard output'
complete -c rheap -n '__fish_seen_subcommand_from lisp' -l trace-events -d 'With --cycles: writes trace events, which Perfetto shows, and not lines'
complete -c rheap -n '__fish_seen_subcommand_from lisp' -l explain -d 'Shows the part of a line that is wrong, and says what may stand there'
complete -c rheap -n '__fish_seen_subcommand_from lisp' -s h -l help -d 'Print help'
complete -c rheap -n '__fish_seen_subcommand_from completions' -s h -l help -d 'Print help'
complete -c rheap -n '__fish_seen_subcommand_from completions' -f -a 'bash zsh fish'
";
