//! The words that groups touched and wrote.

ghost use Rattle.std.specs.Prelude.{◌≡◌, ℕ, ◌++◌, ◌∷◌, [], List, Contains, IfOk, OnOk};
ghost use Rattle.std.specs.List.{AllByRecursion, AllZip, flat_map};
ghost use Rattle.std.specs.Option.{option_to_list};
ghost use Rattle.mm_span.specs.Spans.{AreSpans};
ghost use Rattle.mm_explore.specs.Findings.{any_kind};
ghost use Rattle.mm_explore.specs.Results.{GroupFound as GroupValue};
ghost use Rattle.mm_explore.specs.Words.{AreKept, IsGroupFound, IsWordKey};
ghost use Rattle.mm_explore.specs.Words.{passed_words, step_words, words_in};
ghost use Rattle.mm_model.specs.Counted.{writes};

use mm_model::Step;
use mm_span::{Span, SpanBuilder};
use mm_word::{Access, Kind};
use std::alloc::{AllocError, Global};
use std::collections::BTreeSet;
use std::marker::Model;

/// Words, each with its group. Contracts see them as a list, ascending.
#[derive(Drop)]
pub(crate) struct WordSet {
    words: BTreeSet<(u8, u64)>,
    /// Words that were added lately, each at the place that it asks for. There is none before the first.
    recent: Vec<Option<(u8, u64)>>,
}

impl Model for WordSet {
    ghost use Rattle.std.specs.Prelude.{ℕ, List, Contains, IfSome};
    ghost use Rattle.std.specs.List.{AllByRecursion};

    ghost Value = { List (ℕ × ℕ) };

    ghost view = { λ s. s.words.keys };

    ghost invariant = { λ s. AllByRecursion (λ place. IfSome place (Contains s.words.keys)) s.recent.items };
}

/// How many places there are for words that were added lately.
const PLACES: usize = 1024;

/// The place that a word of a group asks for among those that were added lately.
#[inline(always)]
fn place_of(group: u8, word: u64) -> usize {
    (((word >> 3) + 64 * u64::from(group)) % 1024) as usize
}

impl WordSet {
    /// No words.
    fn new(alloc: Global) -> WordSet
        ensures { AreKept [] result }
    {
        WordSet {
            words: BTreeSet::new(alloc),
            recent: Vec::new(alloc),
        }
    }

    /// Adds the word of an access of a group. It is a part of its callers, so that a word that was added lately takes no
    /// call.
    #[inline(always)]
    fn add(&mut self, group: u8, access: &Access) -> Result<(), AllocError>
        ensures { OnOk result ((kept : List (ℕ × ℕ)) → AreKept kept self.old
            → AreKept (kept ++ (group, access.now.addr) ∷ []) self.new) }
    {
        let word = access.addr();
        let place = place_of(group, word);
        if let Some(Some(recent)) = self.recent.get(place) {
            if recent.0 == group && recent.1 == word {
                return Ok(());
            }
        }
        self.add_anew(place, (group, word))
    }

    /// Adds a word of a group, and remembers it at the place that it asks for.
    #[inline(never)]
    fn add_anew(&mut self, place: usize, key: (u8, u64)) -> Result<(), AllocError>
        requires { IsWordKey key }
        ensures { OnOk result ((kept : List (ℕ × ℕ)) → AreKept kept self.old
            → AreKept (kept ++ key ∷ []) self.new) }
    {
        self.words.insert(key)?;
        self.remember(place, key)
    }

    /// Remembers a word that was just added, at the place that it asks for.
    fn remember(&mut self, place: usize, key: (u8, u64)) -> Result<(), AllocError>
        requires { Contains self.old key }
        ensures { self.new ≡ self.old }
    {
        self.make_places()?;
        if place < self.recent.len() {
            self.recent[place] = Some(key);
        }
        Ok(())
    }

    /// Makes the places for words that were added lately, if there are none yet.
    fn make_places(&mut self) -> Result<(), AllocError>
        ensures { self.new ≡ self.old }
    {
        if self.recent.is_empty() {
            self.recent.resize(PLACES, None)?;
        }
        Ok(())
    }
}

/// The words that groups touched and wrote.
#[derive(Drop)]
pub(crate) struct Words {
    pub(crate) touched: WordSet,
    pub(crate) wrote: WordSet,
}

/// Whether an access writes.
fn is_write(access: &Access) -> bool
    ensures { result ≡ writes access.now.kind }
{
    match access.kind() {
        Kind::Store | Kind::LoadSet => true,
        Kind::Fetch | Kind::Load => false,
    }
}

impl Words {
    /// No words.
    pub(crate) fn new(alloc: Global) -> Words
        ensures touched { AreKept [] result.touched }
        ensures wrote { AreKept [] result.wrote }
    {
        Words {
            touched: WordSet::new(alloc),
            wrote: WordSet::new(alloc),
        }
    }

    /// Notes an access of a group, if there is one.
    fn note(&mut self, group: u8, access: Option<Access>) -> Result<(), AllocError>
        ensures touched { OnOk result ((kept : List (ℕ × ℕ)) → AreKept kept self.old.touched
            → AreKept (kept ++ flat_map (passed_words any_kind group) (option_to_list access)) self.new.touched) }
        ensures wrote { OnOk result ((kept : List (ℕ × ℕ)) → AreKept kept self.old.wrote
            → AreKept (kept ++ flat_map (passed_words writes group) (option_to_list access)) self.new.wrote) }
    {
        let Some(access) = access else {
            return Ok(());
        };
        self.touched.add(group, &access)?;
        if is_write(&access) {
            self.wrote.add(group, &access)?;
        }
        Ok(())
    }

    /// Notes the accesses of a step of a group.
    pub(crate) fn note_step(&mut self, group: u8, step: &Step) -> Result<(), AllocError>
        ensures touched { OnOk result ((kept : List (ℕ × ℕ)) → AreKept kept self.old.touched
            → AreKept (kept ++ step_words any_kind group step.now) self.new.touched) }
        ensures wrote { OnOk result ((kept : List (ℕ × ℕ)) → AreKept kept self.old.wrote
            → AreKept (kept ++ step_words writes group step.now) self.new.wrote) }
    {
        self.note(group, step.fetched)?;
        self.note(group, step.touched)
    }
}

/// Gives a key's word to a builder, if the key is of a group.
fn take_key(spans: &mut SpanBuilder, group: u8, key: &(u8, u64)) -> Result<(), AllocError>
    requires { IsWordKey key.now }
    ensures { OnOk result ((keys : List (ℕ × ℕ)) → spans.new ++ words_in group keys
        ≡ spans.old ++ words_in group (key.now ∷ keys)) }
{
    if key.0 == group {
        return spans.push(key.1);
    }
    Ok(())
}

/// The longest runs of the words of a group.
pub(crate) fn spans(alloc: Global, words: &WordSet, group: u8) -> Result<Vec<Span>, AllocError>
    requires { AllByRecursion IsWordKey words.now }
    ensures { IfOk result (λ spans. AreSpans (λ word. Contains words.now (group, word)) spans.items) }
{
    let mut spans = SpanBuilder::new(alloc);
    for key in words.words.iter() {
        take_key(&mut spans, group, key)?;
    }
    spans.finish()
}

/// What a group touched and what it wrote: the longest runs of words, ascending.
#[derive(Drop)]
pub struct GroupFound {
    pub group: u8,
    pub touched: Vec<Span>,
    pub wrote: Vec<Span>,
}

impl Model for GroupFound {
    ghost use Rattle.mm_explore.specs.Results.{GroupFound as GroupValue};

    ghost Value = { GroupValue };

    ghost view = { λ g. record {
      group = g.group;
      reached = record { touched = g.touched.items; wrote = g.wrote.items };
    } };
}

/// What a group touched and wrote.
fn group_found(alloc: Global, words: &Words, group: u8) -> Result<GroupFound, AllocError>
    requires touched { AllByRecursion IsWordKey words.now.touched }
    requires wrote { AllByRecursion IsWordKey words.now.wrote }
    ensures { IfOk result (λ g. IsGroupFound words.now.touched words.now.wrote group g) }
{
    let touched = spans(alloc, &words.touched, group)?;
    let wrote = spans(alloc, &words.wrote, group)?;
    Ok(GroupFound {
        group,
        touched,
        wrote,
    })
}

/// Appends what groups touched and wrote.
pub(crate) fn put_groups(
    alloc: Global,
    out: &mut Vec<GroupFound>,
    words: &Words,
    groups: &[u8],
) -> Result<(), AllocError>
    requires touched { AllByRecursion IsWordKey words.now.touched }
    requires wrote { AllByRecursion IsWordKey words.now.wrote }
    ensures { OnOk result ((found : List GroupValue) × (out.new.items ≡ out.old.items ++ found)
        × AllZip (IsGroupFound words.now.touched words.now.wrote) groups.now found) }
{
    match groups {
        [] => Ok(()),
        [group, rest @ ..] => {
            out.push(group_found(alloc, words, *group)?)?;
            put_groups(alloc, out, words, rest)
        }
    }
}
