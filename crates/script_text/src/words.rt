//! The words of a line, and the forms that a word may have.
ghost use Rattle.std.specs.Prelude.{◌≡◌, ◌<◌, length, slice_index, IfOk, IsSome, IsTrue, MatchResult, OnOk};
ghost use Rattle.std.specs.Iterator.{at_most};
ghost use Rattle.std.specs.Option.{option_copied};
ghost use Rattle.std.specs.Char.{is_ascii_alphabetic, is_ascii_digit};
ghost use Rattle.std.specs.List.{AllPass};
ghost use Rattle.std.specs.Str.{IsAscii};
ghost use Rattle.script_text.specs.Forms.{is_resource_byte, is_system_byte, AreDigits, IsResourceName, NamesSystem, WritesCode, WritesCount, WritesInteger, rule_word, time_word};
ghost use Rattle.script_text.specs.Words.{next_word, after_word};

use crate::error::LineFault;
use shred_run::RunningTime;
use shred_stage::Rule;

/// The most bytes of a name.
const MOST_NAME_BYTES: usize = 32;

/// The most digits of a whole number.
const MOST_DIGITS: usize = 19;

/// The most digits of a count.
const MOST_COUNT_DIGITS: usize = 7;

/// The words of a line, which one or more spaces separate.
#[derive(Drop)]
pub(crate) struct Words<'text> {
    rest: &'text str,
}

impl<'text> Words<'text> {
    /// The words of a line, all of whose bytes are to be ASCII.
    pub(crate) fn of_line(bytes: &'text [u8]) -> Result<Words<'text>, LineFault>
        ensures text { IfOk result (λ words. words.rest.now ≡ bytes.now) }
        ensures ascii { OnOk result (IsAscii bytes.now) }
    {
        match str::from_utf8(bytes) {
            Ok(rest) if rest.is_ascii() => Ok(Words { rest }),
            _ => Err(LineFault::UnknownLine),
        }
    }

    /// The next word, which is not to be missing.
    pub(crate) fn required(&mut self) -> Result<&'text str, LineFault>
        ensures word { MatchResult result (λ word. next_word self.old.rest.now ≡ Some word.now) (λ _. next_word self.old.rest.now ≡ None) }
        ensures rest { self.new.rest.now ≡ after_word self.old.rest.now }
    {
        self.next().ok_or(LineFault::BadWord)
    }

    /// No word is to be left.
    pub(crate) fn end(&mut self) -> Result<(), LineFault>
        ensures { MatchResult result (λ _. next_word self.old.rest.now ≡ None) (λ _. IsSome (next_word self.old.rest.now)) }
    {
        match self.next() {
            None => Ok(()),
            Some(_) => Err(LineFault::BadWord),
        }
    }
}

impl<'text> Iterator for Words<'text> {
    type Item = &'text str;

    ghost remaining = { λ words. at_most (length words.rest.now) };

    // The next word of the text, and what is left of the text after it.
    ghost next_gives = { λ before word after. (option_copied word ≡ next_word before.rest.now) × (after.rest.now ≡ after_word before.rest.now) };

    fn next(&mut self) -> Option<&'text str> {
        let rest = self.rest.trim_start_matches(' ');
        if rest.is_empty() {
            self.rest = rest;
            return None;
        }
        match rest.split_once(' ') {
            Some((word, rest)) => {
                self.rest = rest;
                Some(word)
            }
            None => {
                self.rest = "";
                Some(rest)
            }
        }
    }
}

/// A resource's name: 1 to 32 letters, digits or underscores, the first a letter.
pub(crate) fn resource_name(word: &str) -> Result<&str, LineFault>
    ensures word { IfOk result (λ name. name.now ≡ word.now) }
    ensures name { OnOk result (IsResourceName word.now) }
{
    let is_name = word.len() <= MOST_NAME_BYTES
        && begins_with_letter(word)
        && has_resource_bytes(word);
    if is_name {
        Ok(word)
    } else {
        Err(LineFault::BadWord)
    }
}

/// A system's name: 1 to 32 letters, digits, `_`, `-` or `/`. The word `-` alone is the empty name.
pub(crate) fn system_name(word: &str) -> Result<&str, LineFault>
    ensures { IfOk result (λ name. NamesSystem word.now name.now) }
{
    let is_name = !word.is_empty() && word.len() <= MOST_NAME_BYTES && has_system_bytes(word);
    match word {
        "-" => Ok(""),
        _ if is_name => Ok(word),
        _ => Err(LineFault::BadWord),
    }
}

/// A running time, by its name.
pub(crate) fn running_time(word: &str) -> Result<RunningTime, LineFault>
    ensures { IfOk result (λ time. word.now ≡ time_word time) }
{
    match word {
        "very-short" => Ok(RunningTime::VeryShort),
        "short" => Ok(RunningTime::Short),
        "average" => Ok(RunningTime::Average),
        "long" => Ok(RunningTime::Long),
        "very-long" => Ok(RunningTime::VeryLong),
        _ => Err(LineFault::BadWord),
    }
}

/// A rule of the planner, by its name.
pub(crate) fn planner_rule(word: &str) -> Result<Rule, LineFault>
    ensures { IfOk result (λ rule. word.now ≡ rule_word rule) }
{
    match word {
        "first" => Ok(Rule::First),
        "ordered" => Ok(Rule::Ordered),
        _ => Err(LineFault::BadWord),
    }
}

/// A whole number: an optional `-` and 1 to 19 digits, within 64 bits with sign.
pub(crate) fn integer(word: &str) -> Result<i64, LineFault>
    ensures { IfOk result (WritesInteger word.now) }
{
    let digits = word.strip_prefix('-').unwrap_or(word);
    if !is_digits(digits) || digits.len() > MOST_DIGITS {
        return Err(LineFault::BadWord);
    }
    word.parse().map_err(|_| LineFault::BadWord)
}

/// A count: 1 to 7 digits, and no more than `most`.
pub(crate) fn count(word: &str, most: u32) -> Result<u32, LineFault>
    ensures { IfOk result (WritesCount most word.now) }
{
    if !is_digits(word) || word.len() > MOST_COUNT_DIGITS {
        return Err(LineFault::BadWord);
    }
    match word.parse::<u32>() {
        Ok(count) if count <= most => Ok(count),
        _ => Err(LineFault::BadWord),
    }
}

/// The code of a refusal: digits of a number of 32 bits.
pub(crate) fn refusal_code(digits: &str) -> Result<u32, LineFault>
    ensures { IfOk result (WritesCode digits.now) }
{
    if !is_digits(digits) {
        return Err(LineFault::BadWord);
    }
    digits.parse().map_err(|_| LineFault::BadWord)
}

fn begins_with_letter(word: &str) -> bool
    ensures letter { IsTrue result → IsTrue (is_ascii_alphabetic (slice_index word.now 0)) }
    ensures full { IsTrue result → 0 < length word.now }
{
    word.bytes()
        .next()
        .is_some_and(|byte| byte.is_ascii_alphabetic())
}

fn has_resource_bytes(word: &str) -> bool
    ensures { IsTrue result → AllPass is_resource_byte word.now }
{
    word.bytes()
        .all(|byte| byte.is_ascii_alphanumeric() || byte == b'_')
}

fn has_system_bytes(word: &str) -> bool
    ensures { IsTrue result → AllPass is_system_byte word.now }
{
    word.bytes().all(|byte| byte.is_ascii_alphanumeric() || matches!(byte, b'_' | b'-' | b'/'))
}

fn has_digits(word: &str) -> bool
    ensures { IsTrue result → AllPass is_ascii_digit word.now }
{
    word.bytes().all(|byte| byte.is_ascii_digit())
}

fn is_digits(word: &str) -> bool
    ensures { IsTrue result → AreDigits word.now }
{
    !word.is_empty() && has_digits(word)
}
