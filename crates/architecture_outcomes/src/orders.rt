//! Outcomes are told in the order of `explorer::compare`, and those of the same results by their words.

use crate::outcome::Outcome;
use exploration_text::explorer::compare;
use std::cmp::Ordering;

impl Ord for Outcome {
    ghost use Rattle.std.proofs.Common.{refl};
    ghost use Rattle.std.specs.Cmp.{on_total};
    ghost use Rattle.std.specs.Ordering.{on};
    ghost use Rattle.architecture_outcomes.specs.Outcomes.{end_of};
    ghost use Rattle.exploration_text.specs.Orders.{outcome_total};
    ghost use Rattle.exploration_text.specs.Ranks.{outcome_cmp};

    ghost cmp = { on end_of outcome_cmp };

    ghost total = { on_total end_of outcome_total };

    ghost matches_partial_cmp = { λ x y. refl };

    ghost matches_eq = { λ x y. refl };

    fn cmp(&self, other: &Outcome) -> Ordering {
        compare(&self.harts, &other.harts).then(self.words.cmp(&other.words))
    }
}

impl PartialOrd for Outcome {
    ghost use Rattle.std.specs.Cmp.{on_total, partial_order_from_total};
    ghost use Rattle.std.specs.Ordering.{as_partial_cmp, on};
    ghost use Rattle.architecture_outcomes.specs.Outcomes.{end_of};
    ghost use Rattle.exploration_text.specs.Orders.{outcome_total};
    ghost use Rattle.exploration_text.specs.Ranks.{outcome_cmp};

    ghost partial_cmp = { as_partial_cmp (on end_of outcome_cmp) };

    ghost laws = { partial_order_from_total (on_total end_of outcome_total) };

    fn partial_cmp(&self, other: &Outcome) -> Option<Ordering> {
        Some(self.cmp(other))
    }
}

impl PartialEq for Outcome {
    ghost use Rattle.std.specs.Cmp.{on_total, partial_equiv_from_equiv};
    ghost use Rattle.std.specs.Ordering.{eq_by_cmp, on};
    ghost use Rattle.architecture_outcomes.specs.Outcomes.{end_of};
    ghost use Rattle.exploration_text.specs.Orders.{outcome_total};
    ghost use Rattle.exploration_text.specs.Ranks.{outcome_cmp};
    ghost use Rattle.std.proofs.lemmas.Cmp.{eq_by_cmp_equiv};

    ghost eq = { eq_by_cmp (on end_of outcome_cmp) };

    ghost laws = { partial_equiv_from_equiv (eq_by_cmp_equiv (on_total end_of outcome_total)) };

    fn eq(&self, other: &Outcome) -> bool {
        self.cmp(other).is_eq()
    }
}

impl Eq for Outcome {
    ghost use Rattle.std.specs.Cmp.{on_total};
    ghost use Rattle.architecture_outcomes.specs.Outcomes.{end_of};
    ghost use Rattle.exploration_text.specs.Orders.{outcome_total};
    ghost use Rattle.std.proofs.lemmas.Cmp.{eq_by_cmp_equiv};

    ghost laws = { eq_by_cmp_equiv (on_total end_of outcome_total) };
}
