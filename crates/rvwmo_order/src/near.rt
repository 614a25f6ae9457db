//! Looking at each pair of operations of which the one behind precedes the other in program order, where there
//! are few: no others can break a rule.
ghost use Rattle.std.specs.Prelude.{◌≡◌, IfOk, None, find, true};
ghost use Rattle.memory_model.specs.Rules as rules;
ghost use Rattle.rvwmo_order.specs.Rules.{rule_of};
ghost use Rattle.rvwmo_order.specs.Lows.{AreLows};
ghost use Rattle.rvwmo_order.specs.Ranks.{AreIn, IsIn};
ghost use Rattle.rvwmo_order.specs.Scans.{all_rules, first_broken_rule};
ghost use Rattle.rvwmo_order.specs.declared.rule.Rule.{Rule as RuleValue};

use crate::lows::end_of_earlier;
use crate::ranking::Ranking;
use crate::searching::first_asked;
use crate::sweeping::Sweep;
use crate::verdict::RULES;
use machine_types::MemoryModel;
use memory_model::Operation;
use std::alloc::{AllocError, Global};
use trace_operations::Harts;

/// Whether no operation stands behind another that it must come before, by any rule.
pub(crate) fn are_kept(
    alloc: Global,
    model: MemoryModel,
    harts: &Harts,
    ranking: &Ranking,
    lows: &[u32],
) -> Result<bool, AllocError>
    requires { AreLows ranking.now lows.now }
    ensures { IfOk result (λ kept. kept ≡ true → first_broken_rule model harts.now ranking.now all_rules ≡ None) }
{
    let order = ranking.order();
    for place in 0..order.len() {
        let b = &order[place];
        if lows[place] >= b.place {
            continue;
        }
        let end = end_of_earlier(order, lows, place, b);
        if !asks_none(alloc, model, harts, ranking, &order[place + 1..end], b)? {
            return Ok(false);
        }
    }
    Ok(true)
}

// Whether none of these operations must come before `b`, by any rule.
fn asks_none(
    alloc: Global,
    model: MemoryModel,
    harts: &Harts,
    ranking: &Ranking,
    among: &[Operation],
    b: &Operation,
) -> Result<bool, AllocError>
    requires each { AreIn ranking.now among.now }
    requires there { IsIn ranking.now b.now }
    ensures { IfOk result (λ none. none ≡ true → (rule : RuleValue) → find (λ a. rules.asked_by model harts.now ranking.now (rule_of rule) a b.now) among.now ≡ None) }
{
    let items = harts.items_of(b.hart);
    let mut left = RULES.as_slice();
    while let [rule, rest @ ..] = left {
        let mut sweep = Sweep::new(alloc, *rule);
        sweep.mark(items, ranking, among, b)?;
        if first_asked(&sweep, model, harts, ranking, among, b).is_some() {
            return Ok(false);
        }
        left = rest;
    }
    Ok(true)
}
