//! Rules, looked up by site and by words.
ghost use Rattle.std.specs.Prelude.{◌≡◌, ℕ, List, ◌<◌, ◌≤◌, cond, get_or, length, take, Option, option_copied, Some, None, string_bytes, bytes_eq, OnOk, OnErr};
ghost use Rattle.std.proofs.Props.{props};
ghost use Rattle.std.specs.Option.{option_or};
ghost use Rattle.std.specs.BTreeMap.{get_by_text};
ghost use Rattle.er_rules.specs.declared.index.Entry.{Entry};
ghost use Rattle.er_rules.specs.Targets.{span_of, target_of};
ghost use Rattle.er_rules.specs.Inner.Index.{least_of, first_of, first_taking, has_both, is_of_pattern, is_of_site, is_of_words};
ghost use Rattle.er_rules.specs.Inner.Reach.{end_at};

use crate::Put;
use crate::patterns::pattern_takes;
use crate::reach::Reach;
use crate::rules::{Rule, WordSpan};
use er_event::Word;
use std::alloc::Global;
use std::collections::BTreeMap;

/// A rule of words, and how far it and those in front of it reach from `start` on, as in a binary indexed tree.
#[derive(Drop)]
struct Entry {
    words: WordSpan,
    rule: usize,
    start: usize,
    reach: Reach,
}

/// The rules of words, in their order.
#[derive(Drop)]
struct WordIndex {
    entries: Vec<Entry>,
    ghost starts: { (p : ℕ) (d : Entry) → p < length entries.items → (get_or entries.items p d).start ≤ p } by { Prim.hlevel props },
    ghost reaches: { (p k w : ℕ) (d e : Entry) → p < length entries.items → (get_or entries.items p d).start ≤ k → k ≤ p → (get_or entries.items k e).words.first ≤ w
        → (get_or entries.items k e).words.last < end_at (get_or entries.items p d).reach w } by { Prim.hlevel props },
}

impl WordIndex {
    fn new(alloc: Global) -> WordIndex
        ensures { (lo hi : ℕ) → first_of result.entries.items lo hi ≡ None }
    {
        WordIndex {
            entries: Vec::new(alloc),
        }
    }

    /// Adds a rule that counts where no earlier one does.
    fn push(&mut self, alloc: Global, words: WordSpan, rule: usize) -> Put
        ensures ok { OnOk result ((lo hi : ℕ) → first_of self.new.entries.items lo hi ≡ option_or (first_of self.old.entries.items lo hi) (cond (has_both (Some (span_of words)) lo hi) (Some rule) None)) }
        ensures err { OnErr result ((lo hi : ℕ) → first_of self.new.entries.items lo hi ≡ first_of self.old.entries.items lo hi) }
    {
        self.entries.reserve(1)?;
        let place = self.entries.len();
        let mut start = place;
        let mut reach = Reach::of_words(alloc, &words)?;
        // The rules that the entry in front stands for join this one, if they are as many as it stands for.
        while start > 0 && start - self.entries[start - 1].start == place - start + 1 {
            let before = &self.entries[start - 1];
            reach = Reach::over(alloc, &before.reach, &reach)?;
            start = before.start;
        }
        self.entries.push_reserved(Entry {
            words,
            rule,
            start,
            reach,
        });
        Ok(())
    }

    /// So many of the rules in front have not both words among theirs, and the next one has, if there is one. Of the last no contract speaks.
    fn count_past(&self, lo: u64, hi: u64) -> usize
        ensures within { result ≤ length self.now.entries.items }
        ensures none { first_of (take result self.now.entries.items) lo hi ≡ None }
    {
        let mut past = 0;
        let count = self.entries.len();
        let mut width = count.checked_ilog2().map_or(0, |log| 1usize << log);
        while width > 0 {
            if width <= count - past {
                let entry = &self.entries[past + width - 1];
                if entry.start <= past && entry.reach.end_at(lo) <= hi {
                    past += width;
                }
            }
            width /= 2;
        }
        past
    }

    /// The first rule that has both words among its own.
    fn rule_of(&self, lo: u64, hi: u64) -> Option<usize>
        ensures { result ≡ first_of self.now.entries.items lo hi }
    {
        let mut past = self.count_past(lo, hi);
        while past < self.entries.len() {
            let entry = &self.entries[past];
            if entry.words.contains(lo) && entry.words.contains(hi) {
                return Some(entry.rule);
            }
            past += 1;
        }
        None
    }
}

/// Adds a rule of the site of this name, which counts unless an earlier one has its site.
fn push_name(named: &mut BTreeMap<String, usize>, name: &String, rule: usize) -> Put
    ensures ok { OnOk result ((q : List ℕ) → get_by_text named.new q ≡ option_or (get_by_text named.old q) (cond (bytes_eq (string_bytes name.now) q) (Some rule) None)) }
    ensures err { OnErr result ((q : List ℕ) → get_by_text named.new q ≡ get_by_text named.old q) }
{
    if named.contains_key(name.as_str()) {
        return Ok(());
    }
    named.insert(name.clone()?, rule)?;
    Ok(())
}

/// A rule of the sites whose names a pattern takes.
#[derive(Drop)]
struct Pattern {
    bytes: String,
    rule: usize,
}

/// The first rule of a pattern that takes the name of a site.
fn first_taking(patterns: &[Pattern], name: &[u8]) -> Option<usize>
    ensures { result ≡ first_taking patterns.now (Some name.now) }
{
    for pattern in patterns {
        if pattern_takes(pattern.bytes.as_bytes(), name) {
            return Some(pattern.rule);
        }
    }
    None
}

/// Which rule is the first to take a race, by its site and its words. The time of a look-up grows with the square of the logarithm of the number
/// of rules, whatever the rules are, and with the number of patterns in front of the first one that takes the site.
#[derive(Drop)]
pub(crate) struct RuleIndex {
    /// The first rule of each site.
    named: BTreeMap<String, usize>,
    /// The first rule of the missing site.
    missing: Option<usize>,
    patterns: Vec<Pattern>,
    words: WordIndex,
    alloc: Global,
}

impl RuleIndex {
    ghost use Rattle.er_rules.specs.Inner.Rules.{rule_of_site, rule_of_pattern, rule_of_words};

    /// No rule takes a race.
    pub(crate) fn new(alloc: Global) -> RuleIndex
        ensures sites { (site : Option (List ℕ)) → rule_of_site result site ≡ None }
        ensures patterns { (site : Option (List ℕ)) → rule_of_pattern result site ≡ None }
        ensures words { (lo hi : ℕ) → rule_of_words result lo hi ≡ None }
    {
        RuleIndex {
            named: BTreeMap::new(alloc),
            missing: None,
            patterns: Vec::new(alloc),
            words: WordIndex::new(alloc),
            alloc,
        }
    }

    /// Adds a rule that comes after all others.
    pub(crate) fn push(&mut self, rule: &Rule, number: usize) -> Put
        ensures sites { OnOk result ((site : Option (List ℕ)) → rule_of_site self.new site ≡ option_or (rule_of_site self.old site) (cond (is_of_site (target_of rule.now) site) (Some number) None)) }
        ensures patterns { OnOk result ((site : Option (List ℕ)) → rule_of_pattern self.new site ≡ option_or (rule_of_pattern self.old site) (cond (is_of_pattern (target_of rule.now) site) (Some number) None)) }
        ensures words { OnOk result ((lo hi : ℕ) → rule_of_words self.new lo hi ≡ option_or (rule_of_words self.old lo hi) (cond (is_of_words (target_of rule.now) lo hi) (Some number) None)) }
        ensures err_sites { OnErr result ((site : Option (List ℕ)) → rule_of_site self.new site ≡ rule_of_site self.old site) }
        ensures err_patterns { OnErr result ((site : Option (List ℕ)) → rule_of_pattern self.new site ≡ rule_of_pattern self.old site) }
        ensures err_words { OnErr result ((lo hi : ℕ) → rule_of_words self.new lo hi ≡ rule_of_words self.old lo hi) }
    {
        match rule {
            Rule::Site(Some(name)) => push_name(&mut self.named, name, number),
            Rule::Site(None) => {
                self.missing = self.missing.or(Some(number));
                Ok(())
            }
            Rule::Sites(pattern) => {
                self.patterns.reserve(1)?;
                let bytes = pattern.clone()?;
                self.patterns.push_reserved(Pattern {
                    bytes,
                    rule: number,
                });
                Ok(())
            }
            Rule::Words(Some(words)) => self.words.push(self.alloc, *words, number),
            Rule::Words(None) | Rule::Fact(..) => Ok(()),
        }
    }

    /// The first rule of the site of this name or of the missing one, or of a pattern that takes the name, or whose words have both of these.
    pub(crate) fn rule_of(&self, site: Option<&str>, lo: Word, hi: Word) -> Option<usize>
        ensures { result ≡ least_of (least_of (rule_of_site self.now (option_copied site.entry)) (rule_of_pattern self.now (option_copied site.entry))) (rule_of_words self.now lo hi) }
    {
        let of_words = self.of_words(lo, hi);
        match site {
            Some(name) => {
                let of_pattern = first_taking(&self.patterns, name.as_bytes());
                lesser(lesser(self.named.get(name).copied(), of_pattern), of_words)
            }
            None => lesser(self.missing, of_words),
        }
    }

    /// The first rule whose words have both of these.
    pub(crate) fn of_words(&self, lo: Word, hi: Word) -> Option<usize>
        ensures { result ≡ rule_of_words self.now lo hi }
    {
        self.words.rule_of(lo.number(), hi.number())
    }
}

// The lesser of two rules, where there are two.
fn lesser(first: Option<usize>, second: Option<usize>) -> Option<usize>
    ensures { result ≡ least_of first second }
{
    match (first, second) {
        (Some(first), Some(second)) => Some(first.min(second)),
        (first, None) => first,
        (None, second) => second,
    }
}
