//! Words that ask for a page, and not for a command: those that begin with `help`, and `--version`.
//!
//! The parser's contract does not say of which words that begin with `help` its text is help. So the words decide here.

ghost use Rattle.std.specs.Prelude.{◌≡◌, map, string_bytes};
ghost use Rattle.fm_args.specs.CommandLine.{ask_for_refusals, ask_for_version, is_topic};
ghost use Rattle.fm_args.specs.Parser.{asks_for_help, begins_with_help};

/// Whether the words are `help refusals`, after the program's name.
pub fn ask_for_refusals(words: &[String]) -> bool
    ensures { result ≡ ask_for_refusals (map string_bytes words.now) }
{
    match words {
        [_, first, second] => first.as_str() == "help" && second.as_str() == "refusals",
        _ => false,
    }
}

/// Whether the words are `--version` or `-V` alone, after the program's name.
pub fn ask_for_version(words: &[String]) -> bool
    ensures { result ≡ ask_for_version (map string_bytes words.now) }
{
    match words {
        [_, word] => word.as_str() == "--version" || word.as_str() == "-V",
        _ => false,
    }
}

/// Whether the first word is `help`.
pub fn begin_with_help(words: &[String]) -> bool
    ensures { result ≡ begins_with_help (map string_bytes words.now) }
{
    match words {
        [_, first, ..] => first.as_str() == "help",
        _ => false,
    }
}

/// Whether what follows `help` is nothing, or what there is help for.
pub fn ask_for_help(words: &[String]) -> bool
    ensures { result ≡ asks_for_help (map string_bytes words.now) }
{
    match words {
        [_, _] => true,
        [_, _, topic] => is_topic(topic.as_str()),
        _ => false,
    }
}

// Whether there is help for the word: it names a command, or is `help`.
fn is_topic(word: &str) -> bool
    ensures { result ≡ is_topic word.now }
{
    matches!(
        word,
        "agree"
            | "check"
            | "fleet"
            | "follow"
            | "graph"
            | "list"
            | "pack"
            | "records"
            | "recover"
            | "solve"
            | "plan"
            | "unpack"
            | "why"
            | "winners"
            | "help"
    )
}
