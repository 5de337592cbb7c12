//! The meaning of the arguments of a command line, one after another.
ghost use Rattle.std.specs.Prelude.{◌≡◌, ◌<◌, ◌↔◌, IfOk, map, option_map, true};
ghost use Rattle.std.specs.List.{count_by};
ghost use Rattle.command_line.specs.Requests.{role_after, setting_of, asks, asks_in, files_in, given_after, has_prefix, is_file, is_help, prefix_of, setting_text, setting_text_in, AreValid, fit_from, fits, is_condition, is_drawing, is_of, is_option, is_option_of, is_outer, is_run_option, is_use, may_end, uses_in};
ghost use Rattle.command_line.specs.declared.reading.Role.{Role};
ghost use Rattle.named_sources.specs.Naming as naming;

use named_sources::is_input;
use std::alloc::{AllocError, Global};

/// What an argument may be, given the arguments before it.
#[derive(Clone, Copy)]
pub enum Role {
    /// The first argument: a command, or `--version`.
    Command,
    /// An option, a file, or the `--` after which all are files.
    Any(Group),
    /// The value of an option.
    Value(Group, Setting),
    /// A file.
    File,
}

/// Commands by whether they select graphs: `--faces` has a value in those that do, and none in others.
#[derive(Clone, Copy)]
pub enum Group {
    /// `pick` and `count`.
    Selecting,
    /// All others.
    Other,
}

/// What arguments can ask for, besides files, numbers and progress output.
#[derive(Clone, Copy)]
pub enum Keyword {
    Version,
    Help,
    Frames,
    Layout,
    Check,
    Pick,
    Count,
    Json,
    BestOuter,
    ShortDrawing,
    QuickDrawing,
    Faces,
    Others,
}

/// An option that has a value.
#[derive(Clone, Copy)]
pub enum Setting {
    Lanes,
    Waiting,
    Outer,
    Drawing,
    Vertices,
    Edges,
    Faces,
    Bends,
    Rule,
    By,
}

impl Role {
    /// The role of the argument after `word`, where `self` is the role of `word`: always `File` in `File`; `Any` after
    /// the command and after a value; in `Any`, `File` after `--`, `Value` after an option whose value is the next
    /// argument, and else `Any`.
    fn role_after(self, word: &str) -> Role
        ensures { result ≡ role_after self word.now }
    {
        match self {
            Role::Command => Role::Any(match word {
                "pick" | "count" => Group::Selecting,
                _ => Group::Other,
            }),
            Role::Any(_) if word == "--" => Role::File,
            Role::Any(group) => match setting_of(group, word) {
                Some(setting) => Role::Value(group, setting),
                None => Role::Any(group),
            },
            Role::Value(group, _) => Role::Any(group),
            Role::File => Role::File,
        }
    }

    /// Whether `word` in this role is a file: in the role `File` always, in `Any` if it does not begin with `--`,
    /// otherwise never.
    fn is_file(self, word: &str) -> bool
        ensures { result ≡ is_file self word.now }
    {
        match self {
            Role::Any(_) => !has_prefix(word, b'-', b'-'),
            Role::File => true,
            _ => false,
        }
    }

    /// Whether `word` may stand in this role in the command `command`: in `Any`, an option must be one of the
    /// command's; in `Value`, the value of `--outer` or `--drawing` must be valid. All else fits: files, `--`, other
    /// values, and any word in the roles `Command` and `File`.
    fn fits(self, command: Keyword, word: &str) -> bool
        ensures { result ≡ fits command self word.now }
    {
        match self {
            Role::Any(_) => word == "--" || !is_option(word) || is_option_of(command, word),
            Role::Value(_, Setting::Outer) => is_outer(word),
            Role::Value(_, Setting::Drawing) => is_drawing(word),
            _ => true,
        }
    }

    /// Whether the arguments may end where the next one would have this role: false in `Value`, since the value would
    /// be missing, and true in any other role.
    fn may_end(self) -> bool
        ensures { result ≡ may_end self }
    {
        matches!(self, Role::Command | Role::Any(_) | Role::File)
    }

    /// Whether `word` in this role is the option `name` (with its `--`), alone or with `=` and a value. Always false in
    /// another role than `Any`.
    fn is_use(self, name: &str, word: &str) -> bool
        ensures { result ≡ is_use name.now self word.now }
    {
        match self {
            Role::Any(_) => is_of(name, word),
            _ => false,
        }
    }

    /// Whether `word` in this role asks for `keyword`: for a command or the version only as `Command`, for an option
    /// only as `Any`, for `best`, `short` or `quick` also as the value of its option, and for help in any role but
    /// `File`.
    fn asks(self, keyword: Keyword, word: &str) -> bool
        ensures { result ≡ asks keyword self word.now }
    {
        match (keyword, self) {
            (Keyword::Version, Role::Command) => word == "--version",
            (Keyword::Frames, Role::Command) => word == "frames",
            (Keyword::Layout, Role::Command) => word == "layout",
            (Keyword::Check, Role::Command) => word == "check",
            (Keyword::Pick, Role::Command) => word == "pick",
            (Keyword::Count, Role::Command) => word == "count",
            (Keyword::Json, Role::Any(_)) => word == "--json",
            (Keyword::BestOuter, Role::Any(_)) => word == "--outer=best",
            (Keyword::BestOuter, Role::Value(_, Setting::Outer)) => word == "best",
            (Keyword::ShortDrawing, Role::Any(_)) => word == "--drawing=short",
            (Keyword::ShortDrawing, Role::Value(_, Setting::Drawing)) => word == "short",
            (Keyword::QuickDrawing, Role::Any(_)) => word == "--drawing=quick",
            (Keyword::QuickDrawing, Role::Value(_, Setting::Drawing)) => word == "quick",
            (Keyword::Faces, Role::Any(_)) => word == "--faces",
            (Keyword::Others, Role::Any(_)) => word == "--not",
            (Keyword::Help, Role::File) => false,
            (Keyword::Help, Role::Command) => word == "help" || is_help(word),
            (Keyword::Help, _) => is_help(word),
            _ => false,
        }
    }

    /// The text that `word` in this role gives for `setting`: the whole word if it is that option's value, or in the
    /// role `Any` what follows the `=` of that option. `None` for another option, without `=`, and in the roles
    /// `Command` and `File`.
    fn setting_text<'a>(self, setting: Setting, word: &'a str) -> Option<&'a str>
        ensures { option_map (λ text. text.now) result ≡ setting_text setting self word.now }
    {
        match self {
            Role::Value(_, other) if prefix_of(setting) == prefix_of(other) => Some(word),
            Role::Any(_) => given_after(prefix_of(setting), word),
            _ => None,
        }
    }
}

/// The option that `word` names without a value (`--lanes`, not `--lanes=2`), so that its value is the next argument.
/// `None` if it names no option that has a value, or names `--faces` and `group` is not `Selecting`.
fn setting_of(group: Group, word: &str) -> Option<Setting>
    ensures { result ≡ setting_of group word.now }
{
    match (group, word) {
        (_, "--lanes") => Some(Setting::Lanes),
        (_, "--waiting") => Some(Setting::Waiting),
        (_, "--outer") => Some(Setting::Outer),
        (_, "--drawing") => Some(Setting::Drawing),
        (_, "--vertices") => Some(Setting::Vertices),
        (_, "--edges") => Some(Setting::Edges),
        (_, "--bends") => Some(Setting::Bends),
        (_, "--rule") => Some(Setting::Rule),
        (_, "--by") => Some(Setting::By),
        (Group::Selecting, "--faces") => Some(Setting::Faces),
        _ => None,
    }
}

/// The prefix, such as `--lanes=`, of an argument that has both this option and its value.
fn prefix_of(setting: Setting) -> &'static str
    ensures { result.now ≡ prefix_of setting }
{
    match setting {
        Setting::Lanes => "--lanes=",
        Setting::Waiting => "--waiting=",
        Setting::Outer => "--outer=",
        Setting::Drawing => "--drawing=",
        Setting::Vertices => "--vertices=",
        Setting::Edges => "--edges=",
        Setting::Faces => "--faces=",
        Setting::Bends => "--bends=",
        Setting::Rule => "--rule=",
        Setting::By => "--by=",
    }
}

/// The rest of `word` after the prefix `front`, empty if nothing follows; `None` if `word` does not begin with `front`.
fn given_after<'a>(front: &str, word: &'a str) -> Option<&'a str>
    ensures { option_map (λ text. text.now) result ≡ given_after front.now word.now }
{
    word.strip_prefix(front)
}

/// Whether `word` has the form of an option, known or not: it begins with `-` and is not `-` alone. `--` has this form.
fn is_option(word: &str) -> bool
    ensures { result ≡ is_option word.now }
{
    word.as_bytes().first() == Some(&b'-') && word != "-"
}

/// Whether `word` is the option `name` (with its `--`), alone or with `=` and a value. The value is not checked, and
/// may be empty.
fn is_of(name: &str, word: &str) -> bool
    ensures { result ≡ is_of name.now word.now }
{
    match given_after(name, word) {
        Some(rest) => matches!(rest.as_bytes(), [] | [b'=', ..]),
        None => false,
    }
}

/// Whether `word` is an option of the command `command`, alone or, if it has a value, with `=` and that. A value of
/// `--outer` or `--drawing` must be valid; others are not checked. Always false for `Frames`, and for a keyword that is
/// no command.
fn is_option_of(command: Keyword, word: &str) -> bool
    ensures { result ≡ is_option_of command word.now }
{
    match command {
        Keyword::Layout => is_run_option(word)
            || word == "--json"
            || is_of("--waiting", word)
            || word == "--drawing"
            || given_after("--drawing=", word).is_some_and(is_drawing),
        Keyword::Check => word == "--json" || word == "--faces",
        Keyword::Pick => is_run_option(word) || is_of("--waiting", word) || is_condition(word),
        Keyword::Count => is_run_option(word) || is_of("--by", word) || is_condition(word),
        _ => false,
    }
}

/// Whether `word` is an option that `layout`, `pick` and `count` have in common: `--progress`, or `--lanes` or
/// `--outer`, alone or with `=` and a value. A value of `--outer` must be valid; that of `--lanes` is not checked.
fn is_run_option(word: &str) -> bool
    ensures { result ≡ is_run_option word.now }
{
    word == "--progress"
        || is_of("--lanes", word)
        || word == "--outer"
        || given_after("--outer=", word).is_some_and(is_outer)
}

/// Whether `word` is `--not`, or is `--vertices`, `--edges`, `--faces`, `--bends` or `--rule`, alone or with `=` and a
/// value, which is not checked.
fn is_condition(word: &str) -> bool
    ensures { result ≡ is_condition word.now }
{
    match word {
        _ if word == "--not" => true,
        _ if is_of("--vertices", word) => true,
        _ if is_of("--edges", word) => true,
        _ if is_of("--faces", word) => true,
        _ if is_of("--bends", word) => true,
        _ => is_of("--rule", word),
    }
}

/// Whether `word` is a value of `--outer`: `first` or `best`.
fn is_outer(word: &str) -> bool
    ensures { result ≡ is_outer word.now }
{
    word == "first" || word == "best"
}

/// Whether `word` is a value of `--drawing`: `short` or `quick`.
fn is_drawing(word: &str) -> bool
    ensures { result ≡ is_drawing word.now }
{
    word == "short" || word == "quick"
}

/// Whether `words` are valid arguments of the command `command`: each fits, no option lacks its value at the end, and
/// no option but `--progress` is used twice. The first word, the number of files, and values of other options than
/// `--outer` and `--drawing` are not checked.
pub fn are_valid(command: Keyword, words: &[String]) -> bool
    ensures { (result ≡ true) ↔ AreValid command words.now }
{
    all_fit(command, words)
        && uses("--lanes", words) <= 1
        && uses("--waiting", words) <= 1
        && uses("--outer", words) <= 1
        && uses("--drawing", words) <= 1
        && uses("--json", words) <= 1
        && uses("--faces", words) <= 1
        && uses("--vertices", words) <= 1
        && uses("--edges", words) <= 1
        && uses("--bends", words) <= 1
        && uses("--rule", words) <= 1
        && uses("--by", words) <= 1
        && uses("--not", words) <= 1
}

/// Whether each of `words` fits the command `command` in its role, and no option lacks its value at the end. The first
/// one always fits, as the command. True if there are no words.
fn all_fit(command: Keyword, words: &[String]) -> bool
    ensures { result ≡ fit_from command Role.Command words.now }
{
    let mut role = Role::Command;
    for word in words {
        let text = word.as_str();
        if !role.fits(command, text) {
            return false;
        }
        role = role.role_after(text);
    }
    role.may_end()
}

/// How many of `words` are the option `name` (with its `--`), alone or with `=` and a value. Files, and values that are
/// arguments of their own, do not count.
pub fn uses(name: &str, words: &[String]) -> usize
    ensures { result ≡ uses_in name.now words.now }
{
    let mut count = 0;
    let mut role = Role::Command;
    for word in words {
        let text = word.as_str();
        if role.is_use(name, text) {
            count += 1;
        }
        role = role.role_after(text);
    }
    count
}

/// The first value that `words` give for `setting`, as text that is not checked and may be empty: the argument after
/// the option, or what follows its `=`. `None` if they give none.
pub fn setting_text<'a>(setting: Setting, words: &'a [String]) -> Option<&'a str>
    ensures { option_map (λ text. text.now) result ≡ setting_text_in setting words.now }
{
    let mut role = Role::Command;
    for word in words {
        let text = word.as_str();
        if let Some(given) = role.setting_text(setting, text) {
            return Some(given);
        }
        role = role.role_after(text);
    }
    None
}

/// Whether `word` is `--help` or begins with `-h`.
fn is_help(word: &str) -> bool
    ensures { result ≡ is_help word.now }
{
    word == "--help" || has_prefix(word, b'-', b'h')
}

/// Whether `word` begins with the bytes `first` and `second`; false if it has fewer than two bytes. `second` must not
/// be 0, since the definition reads a missing byte as 0.
fn has_prefix(word: &str, first: u8, second: u8) -> bool
    requires { 0 < second }
    ensures { result ≡ has_prefix first second word.now }
{
    let bytes = word.as_bytes();
    bytes.len() > 1 && bytes[0] == first && bytes[1] == second
}

/// Whether any of `words`, each in the role of its place, asks for `keyword`; false if there are none. It does not
/// check whether they are valid.
pub fn asks(keyword: Keyword, words: &[String]) -> bool
    ensures { result ≡ asks_in keyword words.now }
{
    let mut role = Role::Command;
    for word in words {
        let text = word.as_str();
        if role.asks(keyword, text) {
            return true;
        }
        role = role.role_after(text);
    }
    false
}

/// The files that `words` name, in order and with repetitions; empty if they name none. It does not check whether the
/// words are valid. `AllocError` if there is no memory for the list.
///
/// # Errors
///
/// `AllocError` if there is no memory for the list.
pub fn files_of<'a>(alloc: Global, words: &'a [String]) -> Result<Vec<&'a str>, AllocError>
    ensures { IfOk result (λ files. map (λ file. file.now) files.items ≡ files_in words.now) }
{
    let mut files = Vec::new(alloc);
    let mut role = Role::Command;
    for word in words {
        let text = word.as_str();
        if role.is_file(text) {
            files.push(text)?;
        }
        role = role.role_after(text);
    }
    Ok(files)
}

/// How many of `files` are the name of standard input, `-`.
pub fn inputs_among(files: &[&str]) -> usize
    ensures { result ≡ count_by naming.is_input (map (λ file. file.now) files.now) }
{
    let mut count = 0;
    for file in files {
        if is_input(file) {
            count += 1;
        }
    }
    count
}
