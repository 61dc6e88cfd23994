//! Rules, and which of them takes a race.
ghost use Rattle.std.specs.Prelude.{◌≡◌, ◌<◌, ◌++◌, ◌↔◌, ℕ, List, Option, map, IsTrue, ◌∷◌, [], option_copied, length, position, IfSome, Some, OnOk, OnErr};
ghost use Rattle.std.specs.List.{list_any};
ghost use Rattle.std.proofs.Props.{props};
ghost use Rattle.er_rules.specs.Targets.{ask_facts, asks_facts, matching_rule, matching_reuse_rule, target_of, span_of, is_among};
ghost use Rattle.er_rules.specs.Inner.Index.{is_of_pattern, is_of_site, is_of_words};
ghost use Rattle.er_rules.specs.Inner.Rules.{rule_of_pattern, rule_of_site, rule_of_words};

use crate::Put;
use crate::index::RuleIndex;
use er_event::{PageRange, Word};
use std::alloc::Global;

/// The words from the first to the last, both included.
#[derive(Clone, Copy, Debug, PartialEq, Eq, Hash)]
pub struct WordSpan {
    pub first: Word,
    pub last: Word,
}

impl WordSpan {
    /// Whether a word is one of them.
    pub(crate) fn contains(&self, word: u64) -> bool
        ensures { result ≡ is_among (Some (span_of self.now)) word }
    {
        self.first.number() <= word && word <= self.last.number()
    }
}

/// What a binary trace says of the program that made it.
#[derive(Clone, Copy, Debug, PartialEq, Eq, Drop)]
pub enum FactKind {
    /// The place of an event, or of a call that led to it.
    Frame,
    /// The function that such a place is in.
    Function,
    /// The variable that has an accessed word.
    Variable,
}

/// What races a rule takes.
#[derive(Debug, PartialEq, Eq, Drop)]
pub enum Rule {
    /// Those whose access is at the site of this name, or at the missing site.
    Site(Option<String>),
    /// Those at a site whose name this pattern takes: a star stands for any run of bytes, and every other byte for itself.
    Sites(String),
    /// Those at one of these words. There are none in a run of no bytes.
    Words(Option<WordSpan>),
    /// Those of which a trace says something of this kind by a name that this pattern takes. [`Suppressions::matching_rule`] knows nothing of it.
    Fact(FactKind, String),
}

// Whether a rule asks what a trace says of the program.
fn ask_facts(rules: &[Rule]) -> bool
    ensures { result ≡ list_any (λ rule. asks_facts (target_of rule)) rules.now }
{
    rules.iter().any(|rule| matches!(rule, Rule::Fact(..)))
}

/// Rules in order. The first that takes a race takes it alone. They are indexed as they come in, so that a look-up compares few of them.
#[derive(Drop)]
#[derive_where(Debug, PartialEq, Eq;)]
pub struct Suppressions {
    pub rules: Vec<Rule>,
    #[derive_where(skip)]
    index: RuleIndex,
    ghost by_site: { (site : Option (List ℕ)) → rule_of_site index site ≡ position (λ target. is_of_site target site) (map target_of rules.items) } by { Prim.hlevel props },
    ghost by_pattern: { (site : Option (List ℕ)) → rule_of_pattern index site ≡ position (λ target. is_of_pattern target site) (map target_of rules.items) } by { Prim.hlevel props },
    ghost by_words: { (lo hi : ℕ) → rule_of_words index lo hi ≡ position (λ target. is_of_words target lo hi) (map target_of rules.items) } by { Prim.hlevel props },
}

impl Suppressions {
    ghost use Rattle.er_rules.specs.Rules.{targets_of};

    /// No rules.
    pub fn new(alloc: Global) -> Self
        ensures { targets_of result ≡ [] }
    {
        Suppressions {
            rules: Vec::new(alloc),
            index: RuleIndex::new(alloc),
        }
    }

    /// How many rules there are.
    pub fn len(&self) -> usize
        ensures { result ≡ length (targets_of self.now) }
    {
        self.rules.len()
    }

    /// Whether there are none.
    pub fn is_empty(&self) -> bool
        ensures { IsTrue result ↔ (targets_of self.now ≡ []) }
    {
        self.rules.is_empty()
    }

    /// Whether a rule asks what a trace says of the program.
    pub fn ask_facts(&self) -> bool
        ensures { result ≡ ask_facts (targets_of self.now) }
    {
        ask_facts(&self.rules)
    }

    /// Adds a rule after the others.
    pub fn push(&mut self, rule: Rule) -> Put
        ensures ok { OnOk result (targets_of self.new ≡ targets_of self.old ++ target_of rule ∷ []) }
        ensures err { OnErr result (targets_of self.new ≡ targets_of self.old) }
    {
        self.rules.reserve(1)?;
        self.index.push(&rule, self.rules.len())?;
        self.rules.push_reserved(rule);
        Ok(())
    }

    /// The place of the first rule, from 0, that takes a race of an access to the word, at the site of this name or at the missing
    /// one.
    pub fn matching_rule(&self, site: Option<&str>, word: Word) -> Option<usize>
        ensures matching_rule { result ≡ matching_rule (targets_of self.now) (option_copied site.entry) word }
        ensures within { IfSome result (λ rule. rule < length (targets_of self.now)) }
    {
        self.index.rule_of(site, word, word)
    }

    /// The place of the first rule, from 0, that takes a race of a reuse of these words, at the site of this name or at none.
    pub fn matching_reuse(&self, site: Option<&str>, range: PageRange) -> Option<usize>
        ensures matching_rule { result ≡ matching_reuse_rule (targets_of self.now) (option_copied site.entry) range.lo range.hi }
        ensures within { IfSome result (λ rule. rule < length (targets_of self.now)) }
    {
        let PageRange { lo, hi } = range;
        match site {
            Some(_) => self.index.rule_of(site, lo, hi),
            // A reuse at no site is not for a rule of the missing site.
            None => self.index.of_words(lo, hi),
        }
    }
}
