//! What the program is asked for.
ghost use Rattle.std.specs.Prelude.{◌≡◌, codes, map};
ghost use Rattle.shred_stage.specs.Sinks.{AppendsBeginning};
ghost use Rattle.script_command.specs.Commands.{command_by};
ghost use Rattle.script_text.specs.Texts.{line_of};

use script_text::output::print;
use std::io::Write;

/// What the program is asked for.
#[derive(Clone, Copy, Debug, PartialEq, Eq)]
pub enum Command {
    /// To run the script on standard input.
    Script,
    /// To show the demo.
    Demo,
    /// Nothing that it knows, so it tells how it is called.
    Usage,
}

impl Command {
    /// What these words ask for, which stand behind the program's name: none a script, and `demo` alone the demo.
    pub fn by_words(words: &[String]) -> Command
        ensures { result ≡ command_by (map (λ word. word.bytes.items) words.now) }
    {
        let Some((word, rest)) = words.split_first() else {
            return Command::Script;
        };
        if rest.is_empty() && word.as_str() == "demo" {
            Command::Demo
        } else {
            Command::Usage
        }
    }
}

/// Writes how the program is called, or a beginning of that where it fails. Gives the exit status.
pub fn tell_usage<E: Write>(err: &mut E) -> u8
    ensures status { result ≡ 1 }
    ensures told { AppendsBeginning (E.contents err.old) (E.contents err.new) (line_of (codes "usage: shredrun [demo]")) }
{
    let _ = print(err, b"usage: shredrun [demo]\n");
    1
}
