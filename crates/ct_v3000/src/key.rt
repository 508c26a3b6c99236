ghost use Rattle.std.specs.Prelude.{◌≡◌, ◌==◌, ◌≤◌, ◌+◌, [], length, position, unsigned_abs, IfSome};
ghost use Rattle.ct_sd.specs.Faults.{first_of, faults_at};
ghost use Rattle.ct_v3000.specs.Keys.{by_rule, atom_rule, bond_rule, rule_of, is_zero, number_shows, key_count, value_shows, some_begins, key_shows, keys_show, each_key_shows, said};

use crate::number::Grammar;
use crate::words::Words;
use ct_sd::{FirstFault, equals};
use mc_base::Kind;

/// How the value of a key is written, and the kind that stands where it isn't 0, or always where it may be anything.
#[derive(Clone, Copy, Debug, PartialEq, Eq)]
pub struct Rule {
    pub grammar: Grammar,
    pub shows: Option<Kind>,
}

/// The keys of a sort of lines.
#[derive(Clone, Copy, Debug, PartialEq, Eq)]
pub enum Keys {
    OfAtoms,
    OfBonds,
}

fn by_rule(grammar: Grammar, shows: Option<Kind>) -> Option<Rule>
    ensures { result ≡ by_rule grammar shows }
{
    Some(Rule { grammar, shows })
}

#[tactic(auto, unfolding(crate::specs::Keys::atom_rule))]
fn atom_rule(name: &[u8]) -> Option<Rule>
    ensures { result ≡ atom_rule name.now }
{
    if equals(name, b"CHG") {
        by_rule(Grammar::Signed, None)
    } else if equals(name, b"RAD") {
        by_rule(Grammar::Unsigned, Some(Kind::Radical))
    } else if equals(name, b"MASS") {
        by_rule(Grammar::Unsigned, None)
    } else if equals(name, b"VAL") {
        by_rule(Grammar::Valence, None)
    } else if equals(name, b"HCOUNT")
        || equals(name, b"SUBST")
        || equals(name, b"UNSAT")
        || equals(name, b"RBCNT")
    {
        by_rule(Grammar::Signed, Some(Kind::Query))
    } else if equals(name, b"ATTCHPT") || equals(name, b"RGROUPS") {
        by_rule(Grammar::Any, Some(Kind::Query))
    } else if equals(name, b"INVRET") || equals(name, b"EXACHG") {
        by_rule(Grammar::Unsigned, Some(Kind::Reaction))
    } else if equals(name, b"CFG")
        || equals(name, b"STBOX")
        || equals(name, b"ATTCHORD")
        || equals(name, b"CLASS")
        || equals(name, b"SEQID")
    {
        by_rule(Grammar::Any, None)
    } else {
        None
    }
}

#[tactic(auto, unfolding(crate::specs::Keys::bond_rule))]
fn bond_rule(name: &[u8]) -> Option<Rule>
    ensures { result ≡ bond_rule name.now }
{
    if equals(name, b"CFG") {
        by_rule(Grammar::Configuration, None)
    } else if equals(name, b"TOPO") {
        by_rule(Grammar::Unsigned, Some(Kind::Query))
    } else if equals(name, b"RXCTR") {
        by_rule(Grammar::Signed, Some(Kind::Reaction))
    } else if equals(name, b"ENDPTS") || equals(name, b"ATTACH") {
        by_rule(Grammar::Any, Some(Kind::Query))
    } else if equals(name, b"STBOX") || equals(name, b"DISP") {
        by_rule(Grammar::Any, None)
    } else {
        None
    }
}

impl Keys {
    fn rule(self, name: &[u8]) -> Option<Rule>
        ensures { result ≡ rule_of self name.now }
    {
        match self {
            Keys::OfAtoms => atom_rule(name),
            Keys::OfBonds => bond_rule(name),
        }
    }

    fn count(self) -> usize
        ensures { result ≡ key_count self }
    {
        match self {
            Keys::OfAtoms => 17,
            Keys::OfBonds => 7,
        }
    }

    /// Notes what the key words of a line show.
    #[tactic(auto, unfolding(crate::specs::Keys::keys_show))]
    pub fn note(self, words: &Words<'_>, place: u32, faults: &mut FirstFault)
        ensures { faults.new.fault ≡ first_of faults.old.fault (faults_at place (keys_show self words.now)) }
    {
        if words.count() > self.count() {
            faults.note(Kind::BadField, place);
        } else {
            self.note_each(words, place, faults);
        }
    }

    fn note_each(self, words: &Words<'_>, place: u32, faults: &mut FirstFault)
        ensures { faults.new.fault ≡ first_of faults.old.fault (faults_at place (each_key_shows self [] words.now)) }
    {
        let mut n = 0usize;
        while n < words.count() {
            self.note_word(&words.front(n), words.word(n), place, faults);
            n += 1;
        }
    }

    /// Notes what a key word shows behind the key words before it.
    #[tactic(auto, using(crate::proofs::KindLists::two_shown), unfolding(crate::specs::Keys::key_shows))]
    fn note_word(self, before: &Words<'_>, word: &[u8], place: u32, faults: &mut FirstFault)
        ensures { faults.new.fault ≡ first_of faults.old.fault (faults_at place (key_shows self before.now word.now)) }
    {
        match equals_sign(word) {
            Some(n) => {
                faults.note_if(some_begins(&word[..n + 1], before), Kind::BadField, place);
                note_value(self.rule(&word[..n]), &word[n + 1..], place, faults);
            }
            None => faults.note(Kind::BadField, place),
        }
    }
}

/// Where the first `=` stands.
fn equals_sign(word: &[u8]) -> Option<usize>
    ensures place { result ≡ position (λ b. b == 61) word.now }
    ensures within { IfSome result (λ n. n + 1 ≤ length word.now) }
{
    word.iter().position(|byte| *byte == b'=')
}

/// Whether one of the words begins so.
fn some_begins(head: &[u8], words: &Words<'_>) -> bool
    ensures { result ≡ some_begins head.now words.now }
{
    let mut n = 0usize;
    while n < words.count() {
        if words.word(n).starts_with(head) {
            return true;
        }
        n += 1;
    }
    false
}

/// Notes what a value shows under the rule of its key.
fn note_value(rule: Option<Rule>, value: &[u8], place: u32, faults: &mut FirstFault)
    ensures { faults.new.fault ≡ first_of faults.old.fault (faults_at place (value_shows rule value.now)) }
{
    match rule {
        Some(rule) => note_number(rule, rule.grammar.read(value), place, faults),
        None => faults.note(Kind::BadField, place),
    }
}

fn note_number(rule: Rule, number: Option<i64>, place: u32, faults: &mut FirstFault)
    ensures { faults.new.fault ≡ first_of faults.old.fault (faults_at place (number_shows rule number)) }
{
    match number {
        Some(n) => {
            if let Some(kind) = rule.shows {
                faults.note_if(!is_zero(rule.grammar, n), kind, place);
            }
        }
        None => faults.note(Kind::BadField, place),
    }
}

fn is_zero(grammar: Grammar, n: i64) -> bool
    ensures { result ≡ is_zero grammar n }
{
    match grammar {
        Grammar::Any => false,
        _ => n == 0,
    }
}

/// The number of a key, whose name and `=` are given, where it stands.
pub fn said(words: &Words<'_>, head: &[u8], grammar: Grammar) -> Option<i64>
    ensures value { result ≡ said head.now grammar words.now }
    ensures valence { grammar ≡ Grammar.Valence → IfSome result (λ n. unsigned_abs n ≤ 14) }
    ensures configuration { grammar ≡ Grammar.Configuration → IfSome result (λ n. unsigned_abs n ≤ 3) }
{
    let mut n = 0usize;
    while n < words.count() {
        let word = words.word(n);
        if word.starts_with(head) {
            return grammar.read(&word[head.len()..]);
        }
        n += 1;
    }
    None
}
