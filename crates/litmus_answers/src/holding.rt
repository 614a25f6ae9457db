//! Whether a proposition holds of a state.
ghost use Rattle.std.specs.Prelude.{◌≡◌, ◌≤◌, ◌∷◌, length, reverse, IfOk, OnOk};
ghost use Rattle.litmus_answers.specs.Holding as holding;

use crate::locations::value_of;
use litmus_parts::{Place, Step, Told, Value, is_same_place};
use std::alloc::{AllocError, Global};

/// A state among others: their locations' names, the places that they tell, and its values of these.
#[derive(Clone, Copy)]
pub struct Scene<'a> {
    pub names: &'a [Vec<u8>],
    pub told: &'a [Told],
    pub state: &'a [u32],
}

/// Whether what a state tells is this place's value.
fn is_of(told: &Told, place: &Place) -> bool
    ensures { result ≡ holding.is_of told.now place.now }
{
    let own = match told {
        Told::Register { hart, register, .. } => Place::Register {
            hart: *hart,
            register: *register,
        },
        Told::Location { name, .. } => Place::Location(*name),
    };
    is_same_place(&own, place)
}

/// The bits of a number that count.
pub fn shown(told: &Told, number: u32) -> u32
    ensures { result ≡ holding.shown told.now number }
{
    match told {
        Told::Register { .. } => number,
        Told::Location { mask, .. } => number & *mask,
    }
}

/// Whether a place has a value in a state.
fn has(names: &[Vec<u8>], told: &[Told], state: &[u32], place: &Place, value: &Value) -> bool
    requires { length names.now ≤ 64 }
    ensures { result ≡ holding.has names.now told.now state.now place.now value.now }
{
    let mut told = told;
    let mut state = state;
    while let [first, others @ ..] = told {
        let [number, numbers @ ..] = state else {
            return false;
        };
        if is_of(first, place) {
            return *number == shown(first, value_of(names, value));
        }
        told = others;
        state = numbers;
    }
    false
}

/// Puts a truth value on the others.
#[tactic(auto, using(crate::proofs::Stacks::pushed))]
fn put(stack: &mut Vec<bool>, truth: bool) -> Result<(), AllocError>
    ensures { OnOk result (reverse stack.new.items ≡ truth ∷ reverse stack.old.items) }
{
    stack.push(truth)?;
    Ok(())
}

/// Takes the truth value above, false where there is none.
#[tactic(auto, using(crate::proofs::Stacks::taken_top, crate::proofs::Stacks::taken_below, crate::proofs::Stacks::none_top, crate::proofs::Stacks::none_below))]
fn take(stack: &mut Vec<bool>) -> bool
    ensures top { result ≡ holding.top (reverse stack.old.items) }
    ensures below { reverse stack.new.items ≡ holding.below (reverse stack.old.items) }
{
    match stack.pop() {
        Some(truth) => truth,
        None => false,
    }
}

/// Works out one step.
fn step_on(scene: Scene<'_>, step: &Step, stack: &mut Vec<bool>) -> Result<(), AllocError>
    requires { length scene.names.now ≤ 64 }
    ensures { OnOk result (reverse stack.new.items ≡ holding.stepped (holding.has scene.entry.names.now scene.entry.told.now scene.entry.state.now) step.now (reverse stack.old.items)) }
{
    let Scene { names, told, state } = scene;
    match step {
        Step::True => put(stack, true),
        Step::False => put(stack, false),
        Step::Equal(relation) => {
            let truth = has(names, told, state, &relation.place, &relation.value);
            put(stack, truth)
        }
        Step::Differs(relation) => {
            let truth = !has(names, told, state, &relation.place, &relation.value);
            put(stack, truth)
        }
        Step::Not => {
            let truth = !take(stack);
            put(stack, truth)
        }
        Step::And => {
            let second = take(stack);
            let first = take(stack);
            put(stack, first && second)
        }
        Step::Or => {
            let second = take(stack);
            let first = take(stack);
            put(stack, first || second)
        }
        Step::Implies => {
            let second = take(stack);
            let first = take(stack);
            put(stack, !first || second)
        }
    }
}

/// Whether a proposition holds of a state.
pub fn holds(alloc: Global, scene: Scene<'_>, steps: &[Step]) -> Result<bool, AllocError>
    requires { length scene.names.now ≤ 64 }
    ensures { IfOk result (λ truth. truth ≡ holding.holds scene.entry.names.now scene.entry.told.now scene.entry.state.now steps.now) }
{
    let mut stack = Vec::new(alloc);
    let mut rest = steps;
    while let [step, tail @ ..] = rest {
        step_on(scene, step, &mut stack)?;
        rest = tail;
    }
    Ok(take(&mut stack))
}
