//! The worked row of two seats, and boards that threads share.
ghost use Rattle.std.specs.Prelude.{◌≡◌, ◌<◌};
ghost use Rattle.std.specs.List.{All};
ghost use Rattle.progress_board.specs.Seat.{harts_of, IsSeatOf};

use crate::same::same;
use progress_board::{Board, Seat};
use std::alloc::{AllocError, Global};
use std::process::Abort;
use std::test::Fail;
use std::thread;
use std::thread::Threads;

const DRAWS: u64 = 10_000;

const MOST_POLLS: u64 = 10_000_000;

fn draw_in_turn(rt: &impl Abort, board: &Board, first: &mut Seat, second: &mut Seat)
    requires first { IsSeatOf board.now first.old }
    requires second { IsSeatOf board.now second.old }
    ensures first { IsSeatOf board.now first.new }
    ensures second { IsSeatOf board.now second.new }
{
    same(rt, board.draw(first), Ok(0));
    same(rt, board.draw(second), Ok(1));
    same(rt, board.draw(first), Ok(2));
}

fn tell_each_other(rt: &impl Abort, board: &Board, first: &mut Seat, second: &mut Seat)
    requires first { IsSeatOf board.now first.old }
    requires second { IsSeatOf board.now second.old }
    requires some { 0 < harts_of board.now }
{
    board.halt(second);
    same(rt, board.halted(first), 2);
    same(rt, board.halted(second), 2);
    board.publish(first, 7);
    board.publish(first, 5);
    same(rt, board.published(first, 0), 7);
    same(rt, board.published(second, 0), 7);
}

#[test]
fn row_25(rt: HostRuntime) -> Result<(), Fail> {
    let (board, mut seats) = Board::new(rt.alloc(), 2)?;
    let (Some(mut second), Some(mut first)) = (seats.pop(), seats.pop()) else {
        panic!(rt; "there are not two seats")
    };
    draw_in_turn(&rt, &board, &mut first, &mut second);
    tell_each_other(&rt, &board, &mut first, &mut second);
    Ok(())
}

fn is_eighth(rt: &impl Abort, board: &Board, seat: &mut Seat)
    requires seat { IsSeatOf board.now seat.old }
    requires eight { harts_of board.now ≡ 8 }
{
    same(rt, board.halted(seat), 0);
    same(rt, board.published(seat, 7), 0);
    board.halt(seat);
    board.publish(seat, u64::MAX);
    same(rt, board.halted(seat), 128);
    same(rt, board.published(seat, 7), u64::MAX);
    same(rt, board.published(seat, 6), 0);
}

#[test]
fn the_eighth_hart_has_bit_7_and_a_length(rt: HostRuntime) -> Result<(), Fail> {
    let (board, mut seats) = Board::new(rt.alloc(), 8)?;
    same(&rt, board.harts(), 8);
    same(&rt, seats.len(), 8);
    let Some(mut last) = seats.pop() else {
        panic!(rt; "there is no seat")
    };
    is_eighth(&rt, &board, &mut last);
    Ok(())
}

// As many numbers as the seat draws, at most DRAWS.
fn drawn(alloc: Global, board: &Board, mut seat: Seat) -> Result<Vec<u64>, AllocError>
    requires { IsSeatOf board.now seat }
{
    let mut numbers = Vec::new(alloc);
    for _ in 0..DRAWS {
        let Ok(number) = board.draw(&mut seat) else {
            break;
        };
        numbers.push(number)?;
    }
    Ok(numbers)
}

fn add(numbers: &mut Vec<u64>, list: Result<Vec<u64>, AllocError>) -> Result<(), AllocError> {
    numbers.extend_from_slice(&list?)
}

/// The numbers of all lists, in rising order.
fn sorted(alloc: Global, lists: Vec<Result<Vec<u64>, AllocError>>) -> Result<Vec<u64>, AllocError> {
    let mut numbers = Vec::new(alloc);
    for list in lists {
        add(&mut numbers, list)?;
    }
    numbers.sort()?;
    Ok(numbers)
}

/// What all seats draw, each in a thread of its own, in rising order.
fn drawn_by_all<R: Threads + AllocGlobal + Sync>(
    rt: &R,
    board: &Board,
    seats: Vec<Seat>,
) -> Result<Vec<u64>, AllocError>
    requires { All (λ seat. IsSeatOf board.now seat) seats.items }
{
    let alloc = rt.alloc();
    let lists = thread::map_vec(
        rt,
        seats,
        &move |seat: Seat| -> Result<Vec<u64>, AllocError>
            requires { IsSeatOf board.now seat }
        { drawn(alloc, board, seat) },
    )?;
    sorted(alloc, lists)
}

/// Whether each number is its place.
fn are_places(numbers: &[u64]) -> bool {
    numbers
        .iter()
        .enumerate()
        .all(|(place, number)| place as u64 == *number)
}

fn are_all_drawn(rt: &impl Abort, numbers: &[u64]) {
    same(rt, numbers.len(), 40_000);
    same(rt, are_places(numbers), true);
}

#[test]
fn four_threads_draw_each_number_below_the_counter_once(rt: HostRuntime) -> Result<(), Fail> {
    let (board, mut seats) = Board::new(rt.alloc(), 5)?;
    let Some(mut last) = seats.pop() else {
        panic!(rt; "there is no seat")
    };
    are_all_drawn(&rt, &drawn_by_all(&rt, &board, seats)?);
    same(&rt, board.draw(&mut last), Ok(40_000));
    Ok(())
}

// Publishes a length and polls until every hart has, halts and polls until every hart has.
fn meets_all(board: &Board, mut seat: Seat) -> bool
    requires { IsSeatOf board.now seat }
{
    board.publish(&mut seat, 1);
    for hart in 0..board.harts() {
        if !sees_length(board, &mut seat, hart) {
            return false;
        }
    }
    board.halt(&mut seat);
    sees_all_halted(board, &mut seat)
}

fn sees_length(board: &Board, seat: &mut Seat, hart: u8) -> bool
    requires { IsSeatOf board.now seat.old × (hart < harts_of board.now) }
    ensures { IsSeatOf board.now seat.new }
{
    for _ in 0..MOST_POLLS {
        if board.published(seat, hart) > 0 {
            return true;
        }
        thread::yield_now();
    }
    false
}

fn sees_all_halted(board: &Board, seat: &mut Seat) -> bool
    requires { IsSeatOf board.now seat.old }
{
    for _ in 0..MOST_POLLS {
        if board.halted(seat) == (1 << board.harts()) - 1 {
            return true;
        }
        thread::yield_now();
    }
    false
}

#[test]
fn four_threads_see_what_the_others_publish(rt: HostRuntime) -> Result<(), Fail> {
    let (board, seats) = Board::new(rt.alloc(), 4)?;
    let shared = &board;
    let met = thread::map_vec(
        &rt,
        seats,
        &move |seat: Seat| -> bool
            requires { IsSeatOf shared.now seat }
        { meets_all(shared, seat) },
    )?;
    same(&rt, met.as_slice(), &[true; 4]);
    Ok(())
}
