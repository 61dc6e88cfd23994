//! What holds of every text of rules.
ghost use Rattle.std.specs.Prelude.{◌≡◌, ◌⊎◌, ℕ, List};
ghost use Rattle.er_lines.specs.declared.faults.TextFault.{TextFault};
ghost use Rattle.er_rules.specs.Rules.{Target};
ghost use Rattle.er_rules.specs.Texts.{IsRules, IsRulesFault};

/// A text is a list of rules or has a fault, and never both. It has one list of rules at most, and one fault.
pub fn rules_or_fault()
    ensures either { (text : List ℕ) (limit : ℕ) → ((rules : List Target) × IsRules text limit rules) ⊎ ((f : TextFault) × IsRulesFault text limit f) }
    ensures never_both { (text : List ℕ) (limit : ℕ) (rules : List Target) (f : TextFault) → IsRules text limit rules → IsRulesFault text limit f → ⊥ }
    ensures one_list { (text : List ℕ) (limit : ℕ) (r s : List Target) → IsRules text limit r → IsRules text limit s → r ≡ s }
    ensures one_fault { (text : List ℕ) (limit : ℕ) (f g : TextFault) → IsRulesFault text limit f → IsRulesFault text limit g → f ≡ g }
{}
