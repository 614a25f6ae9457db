//! Propositions.
ghost use Rattle.std.specs.Prelude.{◌≡◌, Ok, [], ◌∷◌, replicate};
ghost use Rattle.litmus_text.specs.Propositions as propositions;
ghost use Rattle.litmus_parts.specs.Stops.{seen, Adds};

use crate::atom::{atom_at, negation_at};
use litmus_parts::{Cause, Step, Stop, expect};
use text_words::symbol_at;

/// No more operands stand in a row with one operator between.
const MOST_OPERANDS: u32 = 1000;

/// Negations and parentheses nest no deeper.
const MOST_LEVELS: u32 = 64;

/// No more arrows stand in a row: each takes all that stands behind it.
const MOST_ARROWS: u32 = 64;

/// What stands behind its operands.
#[derive(Clone, Copy)]
enum Operator {
    Not,
    And,
    Or,
    Implies,
}

fn step_of(operator: Operator) -> Step
    ensures { result ≡ propositions.step_of operator }
{
    match operator {
        Operator::Not => Step::Not,
        Operator::And => Step::And,
        Operator::Or => Step::Or,
        Operator::Implies => Step::Implies,
    }
}

/// The step of an operator that was read, and what stands behind it.
fn operator_at(operator: Operator, rest: &[u8]) -> Result<(Step, &[u8]), Stop>
    ensures { seen (λ x. (x.0, x.1.now)) result ≡ propositions.read_as operator rest.entry.now }
{
    Ok((step_of(operator), rest))
}

/// Adds an operator.
fn put<'a>(operator: Operator, rest: &'a [u8], steps: &mut Vec<Step>) -> Result<&'a [u8], Stop>
    ensures { Adds (λ x. x.now) steps.old.items steps.new.items result (Ok (propositions.step_of operator ∷ [], rest.entry.now)) }
{
    match operator_at(operator, rest) {
        Ok((step, rest)) => match steps.push(step) {
            Ok(()) => Ok(rest),
            Err(_) => Err(Stop::Memory),
        },
        Err(stop) => Err(stop),
    }
}

/// Adds `true`, `false`, or a place and a value.
fn add_atom<'a>(harts: u8, bytes: &'a [u8], steps: &mut Vec<Step>) -> Result<&'a [u8], Stop>
    ensures { Adds (λ x. x.now) steps.old.items steps.new.items result (propositions.alone (propositions.atom_at harts bytes.now)) }
{
    match atom_at(harts, bytes) {
        Ok((step, rest)) => match steps.push(step) {
            Ok(()) => Ok(rest),
            Err(_) => Err(Stop::Memory),
        },
        Err(stop) => Err(stop),
    }
}

/// Adds an operand: a negated one, a proposition in parentheses, or a relation.
#[cycle(nesting)]
fn operand_at<'a>(
    depth: u32,
    harts: u8,
    bytes: &'a [u8],
    steps: &mut Vec<Step>,
) -> Result<&'a [u8], Stop>
    ensures { Adds (λ x. x.now) steps.old.items steps.new.items result (propositions.operand_at depth harts bytes.now) }
{
    if depth == 0 {
        return Err(Stop::at(Cause::Shallow, bytes));
    }
    let inner = depth - 1;
    match (negation_at(bytes), symbol_at(b"(", bytes)) {
        (Some(rest), _) => then_operand(Operator::Not, inner, harts, rest, steps),
        (None, Some(rest)) => grouped_at(inner, harts, rest, steps),
        (None, None) => add_atom(harts, bytes, steps),
    }
}

/// Adds a proposition in parentheses, of which one was passed.
#[cycle(nesting)]
fn grouped_at<'a>(
    depth: u32,
    harts: u8,
    bytes: &'a [u8],
    steps: &mut Vec<Step>,
) -> Result<&'a [u8], Stop>
    ensures { Adds (λ x. x.now) steps.old.items steps.new.items result (propositions.closed (propositions.proposition_of 64 (propositions.operand_at depth harts) bytes.now)) }
{
    match proposition_of(depth, harts, bytes, steps) {
        Ok(rest) => expect(b")", Cause::Close, rest),
        Err(stop) => Err(stop),
    }
}

/// Adds an operand, and then a step.
#[cycle(nesting)]
fn then_operand<'a>(
    operator: Operator,
    depth: u32,
    harts: u8,
    bytes: &'a [u8],
    steps: &mut Vec<Step>,
) -> Result<&'a [u8], Stop>
    ensures { Adds (λ x. x.now) steps.old.items steps.new.items result (propositions.then_step (propositions.step_of operator) (propositions.operand_at depth harts bytes.now)) }
{
    match operand_at(depth, harts, bytes, steps) {
        Ok(rest) => put(operator, rest, steps),
        Err(stop) => Err(stop),
    }
}

/// Adds what stands behind the first operand of `/\`.
#[cycle(nesting)]
fn conjuncts_at<'a>(
    depth: u32,
    harts: u8,
    bytes: &'a [u8],
    steps: &mut Vec<Step>,
) -> Result<&'a [u8], Stop>
    ensures { Adds (λ x. x.now) steps.old.items steps.new.items result (propositions.chain_at (47 ∷ 92 ∷ []) Step.And (propositions.operand_at depth harts) 1000 bytes.now) }
{
    let mut rest = bytes;
    'conjuncts: for taken in 0..MOST_OPERANDS {
        match symbol_at(b"/\\", rest) {
            None => return Ok(rest),
            Some(later) => match then_operand(Operator::And, depth, harts, later, steps) {
                Ok(later) => rest = later,
                Err(stop) => return Err(stop),
            },
        }
    }
    Err(Stop::at(Cause::FewOperands, rest))
}

/// Adds operands with `/\` between.
#[cycle(nesting)]
fn conjunction_at<'a>(
    depth: u32,
    harts: u8,
    bytes: &'a [u8],
    steps: &mut Vec<Step>,
) -> Result<&'a [u8], Stop>
    ensures { Adds (λ x. x.now) steps.old.items steps.new.items result (propositions.conjunction_of (propositions.operand_at depth harts) bytes.now) }
{
    match operand_at(depth, harts, bytes, steps) {
        Ok(rest) => conjuncts_at(depth, harts, rest, steps),
        Err(stop) => Err(stop),
    }
}

/// Adds an operand of `\/`, and then that operator.
#[cycle(nesting)]
fn or_conjunction<'a>(
    depth: u32,
    harts: u8,
    bytes: &'a [u8],
    steps: &mut Vec<Step>,
) -> Result<&'a [u8], Stop>
    ensures { Adds (λ x. x.now) steps.old.items steps.new.items result (propositions.then_step Step.Or (propositions.conjunction_of (propositions.operand_at depth harts) bytes.now)) }
{
    match conjunction_at(depth, harts, bytes, steps) {
        Ok(rest) => put(Operator::Or, rest, steps),
        Err(stop) => Err(stop),
    }
}

/// Adds what stands behind the first operand of `\/`.
#[cycle(nesting)]
fn disjuncts_at<'a>(
    depth: u32,
    harts: u8,
    bytes: &'a [u8],
    steps: &mut Vec<Step>,
) -> Result<&'a [u8], Stop>
    ensures { Adds (λ x. x.now) steps.old.items steps.new.items result (propositions.chain_at (92 ∷ 47 ∷ []) Step.Or (propositions.conjunction_of (propositions.operand_at depth harts)) 1000 bytes.now) }
{
    let mut rest = bytes;
    'disjuncts: for taken in 0..MOST_OPERANDS {
        match symbol_at(b"\\/", rest) {
            None => return Ok(rest),
            Some(later) => match or_conjunction(depth, harts, later, steps) {
                Ok(later) => rest = later,
                Err(stop) => return Err(stop),
            },
        }
    }
    Err(Stop::at(Cause::FewOperands, rest))
}

/// Adds operands with `\/` between.
#[cycle(nesting)]
fn disjunction_at<'a>(
    depth: u32,
    harts: u8,
    bytes: &'a [u8],
    steps: &mut Vec<Step>,
) -> Result<&'a [u8], Stop>
    ensures { Adds (λ x. x.now) steps.old.items steps.new.items result (propositions.disjunction_of (propositions.operand_at depth harts) bytes.now) }
{
    match conjunction_at(depth, harts, bytes, steps) {
        Ok(rest) => disjuncts_at(depth, harts, rest, steps),
        Err(stop) => Err(stop),
    }
}

/// Adds a proposition: operands with arrows between, and then the arrows.
#[cycle(nesting)]
fn proposition_of<'a>(
    depth: u32,
    harts: u8,
    bytes: &'a [u8],
    steps: &mut Vec<Step>,
) -> Result<&'a [u8], Stop>
    ensures { Adds (λ x. x.now) steps.old.items steps.new.items result (propositions.proposition_of 64 (propositions.operand_at depth harts) bytes.now) }
{
    let mut rest = bytes;
    'arrows: for taken in 0..MOST_ARROWS {
        match disjunction_at(depth, harts, rest, steps) {
            Ok(behind) => match symbol_at(b"=>", behind) {
                Some(later) => rest = later,
                None => return put_arrows(taken, behind, steps),
            },
            Err(stop) => return Err(stop),
        }
    }
    Err(Stop::at(Cause::Shallow, rest))
}

/// Adds so many arrows.
fn put_arrows<'a>(count: u32, rest: &'a [u8], steps: &mut Vec<Step>) -> Result<&'a [u8], Stop>
    ensures { Adds (λ x. x.now) steps.old.items steps.new.items result (Ok (replicate count Step.Implies, rest.entry.now)) }
{
    for placed in 0..count {
        match put(Operator::Implies, rest, steps) {
            Ok(_same) => {}
            Err(stop) => return Err(stop),
        }
    }
    Ok(rest)
}

/// Adds a proposition about so many harts, and answers what stands behind it.
#[tactic(auto, unfolding(crate::specs::Propositions::proposition_at))]
pub(crate) fn proposition_at<'a>(
    harts: u8,
    bytes: &'a [u8],
    steps: &mut Vec<Step>,
) -> Result<&'a [u8], Stop>
    ensures { Adds (λ x. x.now) steps.old.items steps.new.items result (propositions.proposition_at harts bytes.now) }
{
    proposition_of(MOST_LEVELS, harts, bytes, steps)
}
