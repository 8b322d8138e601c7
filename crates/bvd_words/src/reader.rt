//! Cuts the words behind a command into flags, options with a text, and files. The reader goes by a table of options, so that a new command is a row of a table and no new code.
ghost use Rattle.std.specs.Prelude.{◌≡◌, ℕ, List, Option, option_map, map, string_bytes, Some, None, IfOk, IfSome, IfNone, OnOk};
ghost use Rattle.bvd_words.specs.Words.{word_of, kind_of, cut, option_gives, word_gives, named};
ghost use Rattle.bvd_words.specs.Words.Item.{File};
ghost use Rattle.bvd_words.specs.Words as spec;
ghost use Rattle.bvd_words.specs.Shown.{kind_shown, table, word_shown, item_shown, items_shown, turn_gives, left, turned, IsTurn, prefixed, behind_item};

use std::alloc::{AllocError, Global};

/// What an option wants: nothing (a switch, as `--quiet`), or a decimal number within bounds.
#[derive(Clone, Copy)]
pub enum Kind {
    Switch,
    Number { least: u64, most: u64 },
}

/// An option of a command, by its name without the dashes.
#[derive(Clone, Copy)]
pub struct CommandOption<'a> {
    pub name: &'a str,
    pub kind: Kind,
}

/// What a word is, as long as no `--` has come: `--` itself, a word without a dash at its front (or a lone dash), `--name` or `--name=text`, or any other word that begins with a dash.
#[derive(Clone, Copy)]
pub enum WordKind<'a> {
    End,
    Plain,
    Named(&'a str, Option<&'a str>),
    Dashed,
}

/// What words give: a switch that is set, an option with its text, or a file's name.
#[derive(Clone, Copy)]
pub enum Item<'a> {
    Flag(&'a str),
    Valued(&'a str, &'a str),
    File(&'a str),
}

/// Where the reader stands between two words.
#[derive(Clone, Copy)]
pub enum State<'a> {
    Free,
    Waiting(&'a str),
    Ended,
}

/// What a word comes to.
#[derive(Clone, Copy)]
pub enum Turn<'a> {
    Refused,
    Gives(Item<'a>),
    Waits(&'a str),
    Ends,
}

/// What follows a first dash.
fn strip_dash(word: &str) -> Option<&str>
    ensures { option_map (λ s. s.now) result ≡ spec.behind_dash word.now }
{
    word.strip_prefix('-')
}

/// What stands behind two dashes.
fn named_kind(name: &str) -> WordKind<'_>
    ensures { word_shown result ≡ named name.now }
{
    if name.is_empty() {
        return WordKind::End;
    }
    match name.split_once('=') {
        Some((name, text)) => WordKind::Named(name, Some(text)),
        None => WordKind::Named(name, None),
    }
}

/// What a word is.
fn kind_of_word(word: &str) -> WordKind<'_>
    ensures { word_shown result ≡ word_of word.now }
{
    let Some(rest) = strip_dash(word) else {
        return WordKind::Plain;
    };
    if rest.is_empty() {
        return WordKind::Plain;
    }
    match strip_dash(rest) {
        Some(name) => named_kind(name),
        None => WordKind::Dashed,
    }
}

/// The kind of the option with this name.
fn kind_in(options: &[CommandOption<'_>], name: &str) -> Option<Kind>
    ensures { option_map kind_shown result ≡ kind_of (table options.now) name.now }
{
    for option in options {
        if option.name == name {
            return Some(option.kind);
        }
    }
    None
}

/// What the word of an option comes to.
fn turn_named<'a>(options: &[CommandOption<'_>], name: &'a str, text: Option<&'a str>) -> Turn<'a>
    ensures { (rest : Option (List spec.Item)) (waiting : List ℕ → Option (List spec.Item)) (ended : Option (List spec.Item))
        → option_gives (kind_of (table options.now) name.now) name.now (option_map (λ t. t.now) text.entry) rest (waiting name.now) ≡ turn_gives result rest waiting ended }
{
    match (kind_in(options, name), text) {
        (Some(Kind::Switch), None) => Turn::Gives(Item::Flag(name)),
        (Some(Kind::Number { .. }), Some(text)) => Turn::Gives(Item::Valued(name, text)),
        (Some(Kind::Number { .. }), None) => Turn::Waits(name),
        _ => Turn::Refused,
    }
}

/// What a word comes to where no option waits.
fn turn_free<'a>(options: &[CommandOption<'_>], word: &'a str) -> Turn<'a>
    ensures { IsTurn (table options.now) State.Free word.now result }
{
    match kind_of_word(word) {
        WordKind::End => Turn::Ends,
        WordKind::Plain => Turn::Gives(Item::File(word)),
        WordKind::Named(name, text) => turn_named(options, name, text),
        WordKind::Dashed => Turn::Refused,
    }
}

/// What a word comes to as the text of an option.
fn turn_text<'a>(options: &[CommandOption<'_>], name: &'a str, word: &'a str) -> Turn<'a>
    ensures { IsTurn (table options.now) (State.Waiting name.entry) word.now result }
{
    match kind_of_word(word) {
        WordKind::Plain => Turn::Gives(Item::Valued(name, word)),
        _ => Turn::Refused,
    }
}

/// What a word comes to.
fn turn_of<'a>(options: &[CommandOption<'_>], state: State<'a>, word: &'a str) -> Turn<'a>
    ensures { IsTurn (table options.now) state.entry word.now result }
{
    match state {
        State::Free => turn_free(options, word),
        State::Waiting(name) => turn_text(options, name, word),
        State::Ended => Turn::Gives(Item::File(word)),
    }
}

/// Where the reader stands behind an item.
fn behind_item<'a>(state: State<'a>) -> State<'a>
    ensures { result ≡ behind_item state.entry }
{
    match state {
        State::Ended => State::Ended,
        _ => State::Free,
    }
}

/// Takes a turn: adds what the word gives, and says where the reader then stands, or None where the word is refused.
fn advance<'a>(
    items: &mut Vec<Item<'a>>,
    state: State<'a>,
    turn: Turn<'a>,
) -> Result<Option<State<'a>>, AllocError>
    ensures some { IfOk result (λ r. IfSome r (λ next. (os : spec.Options) (words : List (List ℕ))
        → prefixed (items_shown items.old.items) (turned os state.entry turn.entry words) ≡ prefixed (items_shown items.new.items) (left os next words))) }
    ensures none { IfOk result (λ r. IfNone r ((os : spec.Options) (words : List (List ℕ)) → turned os state.entry turn.entry words ≡ None)) }
{
    match turn {
        Turn::Refused => Ok(None),
        Turn::Gives(item) => {
            items.push(item)?;
            Ok(Some(behind_item(state)))
        }
        Turn::Waits(name) => Ok(Some(State::Waiting(name))),
        Turn::Ends => Ok(Some(State::Ended)),
    }
}

/// The words behind a command as items, by its table of options; None exactly where the words can't be cut.
/// Errors: want of memory alone. Cost: the words' bytes times the number of options.
pub fn cut<'a>(
    alloc: Global,
    options: &[CommandOption<'_>],
    words: &'a [String],
) -> Result<Option<Vec<Item<'a>>>, AllocError>
    ensures { IfOk result (λ r. option_map (λ v. items_shown v.items) r ≡ cut (table options.now) None (map string_bytes words.now)) }
{
    let mut items = Vec::new(alloc);
    let mut state = State::Free;
    for word in words {
        match advance(&mut items, state, turn_of(options, state, word.as_str()))? {
            Some(next) => state = next,
            None => return Ok(None),
        }
    }
    match state {
        State::Waiting(_) => Ok(None),
        _ => Ok(Some(items)),
    }
}
