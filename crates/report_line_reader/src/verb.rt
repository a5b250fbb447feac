//! The words that begin a record, and what is read after each.

ghost use Rattle.std.specs.Prelude.{◌≡◌, ◌++◌, ℕ, List};
ghost use Rattle.std.specs.Option.{option_map};
ghost use Rattle.vm_shape.specs.declared.description.Description.{Description as Described};
ghost use Rattle.mate_journal.specs.Log.{Log};
ghost use Rattle.report_line_reader.specs.Words.{first, rest, only_at_end};
ghost use Rattle.report_writer.specs.Words.{word, entry_words};
ghost use Rattle.report_line_reader.specs.declared.light_line.Bulk.{Bulk as WithBulk};
ghost use Rattle.report_line_reader.specs.declared.verb.Verb.TheVariants as verbs;
ghost use Rattle.report_line_reader.specs.Forms.{newer};
ghost use Rattle.report_line_reader.specs.LightLine.{told_with};
ghost use Rattle.report_line_reader.specs.Reading.{told_by};
ghost use Rattle.report_line_reader.specs.Verbs.{verb_word, entry_verb, likely, verb_of, void_by, void_of};

use crate::fields::{
    next_context, next_drop, next_fault, next_function, next_handler, next_image, next_node,
    next_number, next_packet, next_value, payload,
};
use crate::light_line::{Bulk, LightTold};
use crate::store_words::store_of;
use crate::words::{Words, same_bytes};
use mate_journal::{Air, Entry, VoidCause};
use vm_shape::Description;

/// What kind of record a line is of.
#[derive(Clone, Copy)]
pub enum Verb {
    Post,
    Drop,
    Start,
    Ask,
    Answer,
    Halt,
    Fault,
    Install,
    Reset,
    Seen,
    Void,
    Interval,
    Keep,
    Sent,
    Lost,
    Got,
    Noise,
}

impl Verb {
    /// The verb of the entry's line.
    fn of_entry(entry: &Entry) -> Verb
        ensures { result ≡ entry_verb entry.now }
    {
        match entry {
            Entry::Post { .. } => Verb::Post,
            Entry::Dropped { .. } => Verb::Drop,
            Entry::Start { .. } => Verb::Start,
            Entry::Ask { .. } => Verb::Ask,
            Entry::Answer { .. } => Verb::Answer,
            Entry::Halt { .. } => Verb::Halt,
            Entry::Fault { .. } => Verb::Fault,
            Entry::Install { .. } => Verb::Install,
            Entry::Reset => Verb::Reset,
            Entry::Seen { .. } => Verb::Seen,
            Entry::Void { .. } => Verb::Void,
        }
    }

    fn word(self) -> &'static str
        ensures { result.now ≡ verb_word self }
    {
        match self {
            Verb::Post => "post",
            Verb::Drop => "drop",
            Verb::Start => "start",
            Verb::Ask => "ask",
            Verb::Answer => "answer",
            Verb::Halt => "halt",
            Verb::Fault => "fault",
            Verb::Install => "install",
            Verb::Reset => "reset",
            Verb::Seen => "seen",
            Verb::Void => "void",
            Verb::Interval => "interval",
            Verb::Keep => "keep",
            Verb::Sent => "sent",
            Verb::Lost => "lost",
            Verb::Got => "got",
            Verb::Noise => "noise",
        }
    }
}

/// The word that the line of the entry has behind its stamp and its node, as `post`.
pub fn entry_word(entry: &Entry) -> &'static str
    ensures value { result.now ≡ verb_word (entry_verb entry.now) }
    ensures begins { (d : Described) (l : Log) → (after : List ℕ) × (entry_words d l entry.now ≡ word result.now ++ after) }
{
    Verb::of_entry(entry).word()
}

/// The verb whose word has these first and third letters; for other letters any verb.
fn likely(first: u8, third: u8) -> Verb
    ensures { result ≡ likely first third }
{
    match first {
        b'p' => Verb::Post,
        b'd' => Verb::Drop,
        b'a' if third == b'k' => Verb::Ask,
        b'a' => Verb::Answer,
        b'h' => Verb::Halt,
        b'f' => Verb::Fault,
        b'r' => Verb::Reset,
        b'v' => Verb::Void,
        b'i' if third == b's' => Verb::Install,
        b'i' => Verb::Interval,
        b'k' => Verb::Keep,
        b's' if third == b'a' => Verb::Start,
        b's' if third == b'e' => Verb::Seen,
        b's' => Verb::Sent,
        b'l' => Verb::Lost,
        b'g' => Verb::Got,
        _ => Verb::Noise,
    }
}

/// The verb that a word names; None if it names none. The word is compared with that of one verb only.
pub fn verb_of(word: &[u8]) -> Option<Verb>
    ensures { result ≡ verb_of word.now }
{
    let [first, _, third, ..] = word else {
        return None;
    };
    let verb = likely(*first, *third);
    if same_bytes(verb.word().as_bytes(), word) {
        Some(verb)
    } else {
        None
    }
}

/// The verb that the next word names; None if it names none.
pub(crate) fn next_verb(words: &mut Words) -> Option<Verb>
    ensures value { result ≡ first verb_of words.old }
    ensures left { words.new ≡ rest words.old }
{
    verb_of(words.next()?)
}

/// What the words after the verb say. If that has an image or a store, it is left in `bulk`.
pub(crate) fn told_by(
    desc: &Description,
    verb: Verb,
    words: &mut Words,
    bulk: &mut Bulk,
) -> Option<LightTold>
    ensures { option_map (told_with bulk.new) result ≡ told_by desc.now verb words.old }
{
    match verb {
        Verb::Post => post(desc, words),
        Verb::Drop => dropped(desc, words),
        Verb::Start => started(words),
        Verb::Ask => ask(desc, words),
        Verb::Answer => answer(words),
        Verb::Halt => halted(words),
        Verb::Fault => faulted(words),
        Verb::Install => installed(desc, words, bulk),
        Verb::Reset => at_end(words, LightTold::Made(Entry::Reset)),
        Verb::Seen => shown(desc, words, bulk),
        Verb::Void => void(words),
        Verb::Interval => interval(words),
        Verb::Keep => at_end(words, LightTold::OnAir(Air::Keep)),
        Verb::Sent => sent(words),
        Verb::Lost => lost(words),
        Verb::Got => got(words),
        Verb::Noise => noise(words),
    }
}

/// What was read, if no word is left.
fn at_end(words: &Words, told: LightTold) -> Option<LightTold>
    ensures { (x : WithBulk) → option_map (told_with x) result ≡ only_at_end (told_with x told) words.now }
{
    if words.is_empty() { Some(told) } else { None }
}

fn post(desc: &Description, words: &mut Words) -> Option<LightTold>
    ensures { (x : WithBulk) → option_map (told_with x) result ≡ told_by desc.now verbs.Post words.old }
{
    let inv = next_number(words)?;
    let handler = next_handler(desc, words)?;
    let ctx = next_context(desc, words)?;
    let payload = payload(words)?;
    Some(LightTold::Made(Entry::Post {
        inv,
        handler,
        ctx,
        payload,
    }))
}

fn dropped(desc: &Description, words: &mut Words) -> Option<LightTold>
    ensures { (x : WithBulk) → option_map (told_with x) result ≡ told_by desc.now verbs.Drop words.old }
{
    let handler = next_handler(desc, words)?;
    let cause = next_drop(words)?;
    if words.is_empty() {
        Some(LightTold::Made(Entry::Dropped { handler, cause }))
    } else {
        None
    }
}

fn started(words: &mut Words) -> Option<LightTold>
    ensures { (d : Described) (x : WithBulk) → option_map (told_with x) result ≡ told_by d verbs.Start words.old }
{
    let inv = next_number(words)?;
    if words.is_empty() {
        Some(LightTold::Made(Entry::Start { inv }))
    } else {
        None
    }
}

fn ask(desc: &Description, words: &mut Words) -> Option<LightTold>
    ensures { (x : WithBulk) → option_map (told_with x) result ≡ told_by desc.now verbs.Ask words.old }
{
    let inv = next_number(words)?;
    let fun = next_function(desc, words)?;
    let args = payload(words)?;
    Some(LightTold::Made(Entry::Ask { inv, fun, args }))
}

fn answer(words: &mut Words) -> Option<LightTold>
    ensures { (d : Described) (x : WithBulk) → option_map (told_with x) result ≡ told_by d verbs.Answer words.old }
{
    let inv = next_number(words)?;
    let value = next_value(words)?;
    at_end(words, LightTold::Made(Entry::Answer { inv, value }))
}

fn halted(words: &mut Words) -> Option<LightTold>
    ensures { (d : Described) (x : WithBulk) → option_map (told_with x) result ≡ told_by d verbs.Halt words.old }
{
    let inv = next_number(words)?;
    if words.is_empty() {
        Some(LightTold::Made(Entry::Halt { inv }))
    } else {
        None
    }
}

fn faulted(words: &mut Words) -> Option<LightTold>
    ensures { (d : Described) (x : WithBulk) → option_map (told_with x) result ≡ told_by d verbs.Fault words.old }
{
    let inv = next_number(words)?;
    let kind = next_fault(words)?;
    if words.is_empty() {
        Some(LightTold::Made(Entry::Fault { inv, kind }))
    } else {
        None
    }
}

fn installed(desc: &Description, words: &mut Words, bulk: &mut Bulk) -> Option<LightTold>
    ensures { option_map (told_with bulk.new) result ≡ told_by desc.now verbs.Install words.old }
{
    let handler = next_handler(desc, words)?;
    let version = next_number(words)?;
    bulk.image = next_image(words)?;
    if words.is_empty() {
        Some(LightTold::Installed { handler, version })
    } else {
        None
    }
}

fn shown(desc: &Description, words: &mut Words, bulk: &mut Bulk) -> Option<LightTold>
    ensures { option_map (told_with bulk.new) result ≡ told_by desc.now verbs.Seen words.old }
{
    bulk.store = store_of(desc, words)?;
    Some(LightTold::Shown)
}

fn void(words: &mut Words) -> Option<LightTold>
    ensures { (x : WithBulk) → option_map (told_with x) result ≡ void_of words.old }
{
    let word = words.next()?;
    if b"notready".as_slice() == word {
        at_end(
            words,
            LightTold::Made(Entry::Void {
                cause: VoidCause::NotReady,
            }),
        )
    } else if b"notwaiting".as_slice() == word {
        at_end(
            words,
            LightTold::Made(Entry::Void {
                cause: VoidCause::NotWaiting,
            }),
        )
    } else if b"notnewer".as_slice() == word {
        not_newer(words)
    } else {
        None
    }
}

fn not_newer(words: &mut Words) -> Option<LightTold>
    ensures { (x : WithBulk) → option_map (told_with x) result ≡ void_by newer words.old }
{
    let held = next_number(words)?;
    at_end(
        words,
        LightTold::Made(Entry::Void {
            cause: VoidCause::NotNewer { held },
        }),
    )
}

fn interval(words: &mut Words) -> Option<LightTold>
    ensures { (d : Described) (x : WithBulk) → option_map (told_with x) result ≡ told_by d verbs.Interval words.old }
{
    let length = next_number(words)?;
    if words.is_empty() {
        Some(LightTold::OnAir(Air::Interval { length }))
    } else {
        None
    }
}

fn sent(words: &mut Words) -> Option<LightTold>
    ensures { (d : Described) (x : WithBulk) → option_map (told_with x) result ≡ told_by d verbs.Sent words.old }
{
    let number = next_number(words)?;
    let bytes = next_packet(words)?;
    at_end(words, LightTold::OnAir(Air::Sent { number, bytes }))
}

fn lost(words: &mut Words) -> Option<LightTold>
    ensures { (d : Described) (x : WithBulk) → option_map (told_with x) result ≡ told_by d verbs.Lost words.old }
{
    let number = next_number(words)?;
    let to = next_node(words)?;
    at_end(words, LightTold::OnAir(Air::Lost { number, to }))
}

fn got(words: &mut Words) -> Option<LightTold>
    ensures { (d : Described) (x : WithBulk) → option_map (told_with x) result ≡ told_by d verbs.Got words.old }
{
    let number = next_number(words)?;
    let from = next_node(words)?;
    at_end(words, LightTold::OnAir(Air::Got { number, from }))
}

fn noise(words: &mut Words) -> Option<LightTold>
    ensures { (d : Described) (x : WithBulk) → option_map (told_with x) result ≡ told_by d verbs.Noise words.old }
{
    let bytes = next_packet(words)?;
    if words.is_empty() {
        Some(LightTold::OnAir(Air::Noise { bytes }))
    } else {
        None
    }
}
