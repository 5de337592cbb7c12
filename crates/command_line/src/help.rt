//! The texts of help, and the definition of the command line for clap, which tells why arguments are refused.
ghost use Rattle.std.specs.Prelude.{◌≡◌};
ghost use Rattle.command_line.specs.Helps.{help_in, help_of};

use clap::{Arg, ArgAction, Command};
use std::alloc::{AllocError, Global};

/// The whole definition of the command line for clap: `--version`, and the commands `layout`, `frames`, `check`, `pick`
/// and `count` with their options and files. `AllocError` if there is no memory for it.
pub(crate) fn describe<'a>(alloc: Global) -> Result<Command<'a>, AllocError> {
    let waiting = valued(alloc, "waiting", "MB").allow_hyphen_values(true);
    Command::new(alloc, "planarbend")
        .bin_name("planarbend")?
        .no_binary_name(true)
        .subcommand_required(true)
        .arg(flag(alloc, "version"))?
        .subcommand(describe_layout(alloc)?)?
        .subcommand(Command::new(alloc, "frames").arg(file_argument(alloc, "FILE"))?)?
        .subcommand(describe_check(alloc)?)?
        .subcommand(describe_selection(alloc, "pick", waiting)?)?
        .subcommand(describe_selection(alloc, "count", valued(alloc, "by", "COLUMNS"))?)
}

/// The definition for clap of the command `layout`: its options and one or more files. `AllocError` if there is no
/// memory for it.
fn describe_layout<'a>(alloc: Global) -> Result<Command<'a>, AllocError> {
    Command::new(alloc, "layout")
        .arg(valued(alloc, "lanes", "N").allow_hyphen_values(true))?
        .arg(valued(alloc, "waiting", "MB").allow_hyphen_values(true))?
        .arg(valued(alloc, "outer", "CHOICE").value_parser(OUTER))?
        .arg(valued(alloc, "drawing", "KIND").value_parser(DRAWING))?
        .arg(flag(alloc, "json"))?
        .arg(flag(alloc, "progress").action(ArgAction::Count))?
        .arg(files_argument(alloc))
}

/// The definition for clap of the option `--` and `name`, which has no value.
fn flag<'a>(alloc: Global, name: &'a str) -> Arg<'a> {
    Arg::new(alloc, name).long(name).action(ArgAction::SetTrue)
}

/// The definition for clap of the option `--` and `name` with one value, which messages call `value`.
fn valued<'a>(alloc: Global, name: &'a str, value: &'a str) -> Arg<'a> {
    Arg::new(alloc, name).long(name).value_name(value)
}

/// The definition for clap of the argument `FILE`: the files of a run, one or more.
fn files_argument<'a>(alloc: Global) -> Arg<'a> {
    Arg::new(alloc, "FILE")
        .required(true)
        .num_args(1..)
        .action(ArgAction::Append)
}

/// The definition for clap of the command `check`: its options, a file of graphs and a file of lines. `AllocError` if
/// there is no memory for it.
fn describe_check<'a>(alloc: Global) -> Result<Command<'a>, AllocError> {
    Command::new(alloc, "check")
        .arg(flag(alloc, "json"))?
        .arg(flag(alloc, "faces"))?
        .arg(file_argument(alloc, "GRAPHS"))?
        .arg(file_argument(alloc, "LINES"))
}

/// The definition for clap of the command `name`, which selects graphs: the options that `pick` and `count` have in
/// common, the option `own`, and one or more files. `AllocError` if there is no memory for it.
fn describe_selection<'a>(
    alloc: Global,
    name: &'a str,
    own: Arg<'a>,
) -> Result<Command<'a>, AllocError> {
    Command::new(alloc, name)
        .arg(valued(alloc, "bends", "RANGE"))?
        .arg(valued(alloc, "rule", "WORD").value_parser(RULES))?
        .arg(valued(alloc, "vertices", "RANGE"))?
        .arg(valued(alloc, "edges", "RANGE"))?
        .arg(valued(alloc, "faces", "RANGE"))?
        .arg(flag(alloc, "not"))?
        .arg(valued(alloc, "outer", "CHOICE").value_parser(OUTER))?
        .arg(valued(alloc, "lanes", "N").allow_hyphen_values(true))?
        .arg(flag(alloc, "progress").action(ArgAction::Count))?
        .arg(own)?
        .arg(files_argument(alloc))
}

/// The definition for clap of the argument `name`: exactly one file, which must be given.
fn file_argument<'a>(alloc: Global, name: &'a str) -> Arg<'a> {
    Arg::new(alloc, name).required(true).action(ArgAction::Set)
}

/// The values of `--outer`.
const OUTER: &[&str] = &["first", "best"];

/// The values of `--drawing`.
const DRAWING: &[&str] = &["short", "quick"];

/// The values of `--rule`.
const RULES: &[&str] = &[
    "none",
    "range",
    "loop",
    "multi",
    "asymmetric",
    "edgeless",
    "degree",
    "disconnected",
    "genus",
];

/// The help for the program.
pub const PROGRAM: &str = "Draw embedded planar graphs in planar_code with the fewest bends

Usage: planarbend <COMMAND>

Commands:
  layout  Lay out the graphs of planar_code files, and print a line for each
  frames  Print a line for each record of a planar_code file, and how the file ends
  check   Check drawings of the graphs of a planar_code file, and print their bends and the fewest possible
  pick    Write the graphs of planar_code files that meet conditions, as planar_code
  count   Count the graphs of planar_code files by vertices, edges, faces, bends or broken rule
  help    Print this message or the help of the given subcommand(s)

Options:
      --version  Print the version and the toolchain
  -h, --help     Print help

Examples:
  planarbend layout examples/two.pc
  planarbend frames examples/two.pc
  planarbend check examples/two.pc examples/two.jsonl
  planarbend pick --bends :25 examples/cubic60.pc > few.pc
  planarbend count --by n,bends examples/planar_d4_n5.pc
";

/// The help for the command `layout`.
pub const LAYOUT: &str = "Lay out the graphs of planar_code files, and print a line for each

Usage: planarbend layout [OPTIONS] <FILE>...

Arguments:
  <FILE>...  Planar_code files (at most 256), each with the header >>planar_code<<; - is standard input

Options:
      --lanes <N>       Number of files to process in parallel (1 to 8) [default: 1]
      --waiting <MB>    Pause later files once this many MB of their output are buffered (1 to 65536) [default: 64]
      --outer <CHOICE>  Outer face: most darts (first) or fewest bends (best) [default: first] [possible \
    values: first, best]
      --drawing <KIND>  Drawing in JSON output: short edges (the default), or quick to compute [possible values: \
    short, quick]
      --json            Write JSON Lines, with angles and bends, coordinates, and dual prices
      --progress...     Show progress on standard error if it is a terminal; repeat to force
  -h, --help            Print help

Examples:
  planarbend layout examples/two.pc
prints
  file 1
  graph 1 ok n=2 m=1 f=1 bends=0 drawn=yes
  graph 2 ok n=3 m=3 f=2 bends=1 drawn=yes
  end complete graphs=2

With a generator (Debian: nauty-geng, nauty-planarg):
  geng -c -D4 8 | planarg -p | planarbend layout -

With --json, each line is a JSON object: one for each graph, and one for each file's end.
Exit status: 0 if every file is complete and memory ran out for no graph, otherwise 3. A refused graph is no error.
";

/// The help for the command `frames`.
pub const FRAMES: &str = "Print a line for each record of a planar_code file, and how the file ends

Usage: planarbend frames <FILE>

Arguments:
  <FILE>  A planar_code file, with the header >>planar_code<<; - is standard input

Options:
  -h, --help  Print help

Example:
  planarbend frames examples/two.pc
prints
  record 1 n=2 bytes=5
  record 2 n=3 bytes=10
  end complete records=2
Exit status: 0 if the file is complete, otherwise 3.
";

/// The help for the command `check`.
pub const CHECK: &str =
    "Check drawings of the graphs of a planar_code file, and print their bends and the fewest possible

Usage: planarbend check [OPTIONS] <GRAPHS> <LINES>

Arguments:
  <GRAPHS>  A planar_code file, with the header >>planar_code<<; - is standard input
  <LINES>   JSON Lines with the points of a drawing for each graph, as layout --json writes; - is standard input

Options:
      --json   Write JSON Lines
      --faces  Also check that each region is the face on the left of its darts
  -h, --help   Print help

Examples:
  planarbend check examples/two.pc examples/two.jsonl
prints
  graph 1 ok bends=0 fewest=0
  graph 2 ok bends=1 fewest=1
  end complete graphs=2 surplus=0

To check planarbend's own drawings:
  planarbend layout --json examples/two.pc | planarbend check examples/two.pc -
Exit status: 3 if a file is not complete or memory ran out for a graph; otherwise 4 if a drawing is not ok or a line \
    has
no matching graph; otherwise 0.
";

/// The help for the command `pick`.
pub const PICK: &str = "Write the graphs of planar_code files that meet conditions, as planar_code

Usage: planarbend pick [OPTIONS] <FILE>...

Arguments:
  <FILE>...  Planar_code files (at most 256), each with the header >>planar_code<<; - is standard input

Options:
      --bends <RANGE>     Fewest bends
      --rule <WORD>       First broken rule, or none [possible values: none, range, loop, multi, asymmetric, edgeless, \
    degree, disconnected, genus]
      --vertices <RANGE>  Number of vertices
      --edges <RANGE>     Number of edges
      --faces <RANGE>     Number of faces
      --not               The graphs that do not meet all conditions
      --outer <CHOICE>    Outer face: most darts (first) or fewest bends (best) [default: first] [possible values: \
    first, best]
      --lanes <N>         Number of files to process in parallel (1 to 8) [default: 1]
      --waiting <MB>      Pause later files once this many MB of their records are buffered (1 to 65536) [default: 64]
      --progress...       Show progress on standard error if it is a terminal; repeat to force
  -h, --help              Print help

Examples:
  planarbend pick --bends :25 examples/cubic60.pc > few.pc
  geng -c -D4 8 | planarg -p | planarbend pick --bends 0 - | planarbend layout --json -

A range is A:B, A:, :B or A alone, with numbers from 0 to 4294967295.
A refused graph has neither bends nor faces, and no edges if its rule is range, loop, multi or asymmetric: it meets no
condition on what it does not have.
The output is the header and the records of the graphs that meet all conditions, in their order.
A graph for which memory ran out is neither written nor one of the others (--not).
A file of planar_code has at most 1000000 records: planarbend reads no more of the output.
Exit status: 0 if every file is complete and memory ran out for no graph, otherwise 3, and a line on standard error.
";

/// The help for the command `count`.
pub const COUNT: &str =
    "Count the graphs of planar_code files by vertices, edges, faces, bends or broken rule

Usage: planarbend count [OPTIONS] <FILE>...

Arguments:
  <FILE>...  Planar_code files (at most 256), each with the header >>planar_code<<; - is standard input

Options:
      --bends <RANGE>     Fewest bends
      --rule <WORD>       First broken rule, or none [possible values: none, range, loop, multi, asymmetric, edgeless, \
    degree, disconnected, genus]
      --vertices <RANGE>  Number of vertices
      --edges <RANGE>     Number of edges
      --faces <RANGE>     Number of faces
      --not               The graphs that do not meet all conditions
      --by <COLUMNS>      Columns of the table: some of n,m,f,bends,rule, with commas between them
      --outer <CHOICE>    Outer face: most darts (first) or fewest bends (best) [default: first] [possible values: \
    first, best]
      --lanes <N>         Number of files to process in parallel (1 to 8) [default: 1]
      --progress...       Show progress on standard error if it is a terminal; repeat to force
  -h, --help              Print help

Example:
  planarbend count --by n,bends examples/two.pc
prints
  n=2 bends=0 graphs=1
  n=3 bends=1 graphs=1
  total graphs=2

A range is A:B, A:, :B or A alone, with numbers from 0 to 4294967295.
A refused graph has neither bends nor faces, and no edges if its rule is range, loop, multi or asymmetric: it meets no
condition on what it does not have.
The table has a line for each combination of values that occurs, ascending. A missing number is -.
A graph for which memory ran out is not counted.
Exit status: 0 if every file is complete and memory ran out for no graph, otherwise 3, and a line on standard error.
";

/// The help text that `words` ask for: that of the command that the first word names, or the second one if the first is
/// `help`; that of the program if there is no such word or it names no command. It does not test whether they ask for
/// help.
pub fn help_text(words: &[String]) -> &'static str
    ensures { result.now ≡ help_in words.now }
{
    match words {
        [] => PROGRAM,
        [word, topic, ..] if word.as_str() == "help" => help_of(topic.as_str()),
        [word, ..] => help_of(word.as_str()),
    }
}

/// The help text of the command `word`: `layout`, `frames`, `check`, `pick` or `count`; for any other word, also the
/// empty one, that of the program.
fn help_of(word: &str) -> &'static str
    ensures { result.now ≡ help_of word.now }
{
    match word {
        _ if word == "layout" => LAYOUT,
        _ if word == "frames" => FRAMES,
        _ if word == "check" => CHECK,
        _ if word == "pick" => PICK,
        _ if word == "count" => COUNT,
        _ => PROGRAM,
    }
}
