//! The messages of a chart.
ghost use Rattle.std.specs.Prelude.{◌≡◌, ◌<◌, ◌≤◌, ◌^◌, ◌++◌, OnOk, length};
ghost use Rattle.std.specs.Option.{ForSome};
ghost use Rattle.run_chart.specs.Arrows as arrows;

use crate::markup::Markup;
use crate::messages::spell_heading;
use crate::naming::{Manner, Naming};
use crate::plan::Plan;
use crate::rows::Posted;
use crate::shapes::{Message, Told, put_arrow};
use std::alloc::AllocError;
use text_fields::Page;
use tl_types::Channel;
use trace_recorder::Direction;

fn channel_number(channel: Channel) -> u16
    ensures value { result ≡ arrows.channel_number channel }
    ensures small { result < 5 }
{
    match channel {
        Channel::A => 0,
        Channel::B => 1,
        Channel::C => 2,
        Channel::D => 3,
        Channel::E => 4,
    }
}

/// The queue that a message goes through: its hart's, of its channel.
fn queue(post: &Posted) -> u16
    ensures { result ≡ arrows.queue post.now }
{
    5 * post.entry.hart as u16 + channel_number(post.entry.message.channel())
}

fn is_sent(post: &Posted) -> bool
    ensures { result ≡ arrows.is_sent post.now }
{
    match post.entry.direction {
        Direction::Sent => true,
        Direction::Taken => false,
    }
}

/// How many messages were sent into a queue.
fn sent_into(queue_number: u16, posts: &[Posted]) -> usize
    ensures value { result ≡ arrows.sent_into queue_number posts.now }
    ensures few { result ≤ length posts.now }
{
    let mut count = 0;
    for post in posts {
        if is_sent(post) && queue(post) == queue_number {
            count += 1;
        }
    }
    count
}

/// The line on which the message of this turn, counted from 0, was taken out of a queue, if it was.
fn taken_at(queue_number: u16, turn: usize, posts: &[Posted]) -> Option<u16>
    ensures { result ≡ arrows.taken_at queue_number turn posts.now }
{
    let mut turns = turn;
    let mut rest = posts;
    while let [post, tail @ ..] = rest {
        if !is_sent(post) && queue(post) == queue_number {
            if turns == 0 {
                return Some(post.line);
            }
            turns -= 1;
        }
        rest = tail;
    }
    None
}

/// The line on which the message that was sent at this place was taken, if it was: a queue hands its
/// messages out in the order in which they were sent.
pub fn taken_on(posts: &[Posted], place: usize, post: &Posted) -> Option<u16>
    requires { place ≤ length posts.now }
    ensures { result ≡ arrows.taken_on posts.now place post.now }
{
    let turn = sent_into(queue(post), &posts[..place]);
    taken_at(queue(post), turn, posts)
}

fn message_of(posts: &[Posted], place: usize, post: &Posted) -> Message
    requires { place ≤ length posts.now }
    ensures value { result ≡ arrows.message posts.now place post.now }
    ensures sent { result.sent < 2 ^ 16 }
    ensures taken { ForSome result.taken (λ t. t < 2 ^ 16) }
{
    let taken = match taken_on(posts, place, post) {
        Some(line) => Some(line as u64),
        None => None,
    };
    Message {
        channel: post.entry.message.channel(),
        hart: post.entry.hart,
        sent: post.line as u64,
        taken,
    }
}

/// The arrow of a message where it was sent.
#[tactic(auto, unfolding(crate::specs::Arrows::arrow))]
fn put_post(
    svg: &mut Markup,
    plan: &Plan,
    names: &Naming<'_>,
    posts: &[Posted],
    place: usize,
    post: &Posted,
) -> Result<(), AllocError>
    requires { place ≤ length posts.now }
    ensures { OnOk result (svg.new ≡ svg.old ++ arrows.arrow plan.now names.now.symbols.now names.now.size posts.now place post.now) }
{
    if !is_sent(post) {
        return Ok(());
    }
    let mut short = Page::new();
    spell_heading(&mut short, names, Manner::Short, &post.entry.message);
    let mut whole = Page::new();
    spell_heading(&mut whole, names, Manner::Whole, &post.entry.message);
    let label = Told {
        short: short.as_slice(),
        whole: whole.as_slice(),
    };
    let message = message_of(posts, place, post);
    put_arrow(svg, plan, &message, label)
}

/// All messages.
pub(crate) fn put_posts(
    svg: &mut Markup,
    plan: &Plan,
    names: &Naming<'_>,
    posts: &[Posted],
) -> Result<(), AllocError>
    ensures { OnOk result (svg.new ≡ svg.old ++ arrows.arrows plan.now names.now.symbols.now names.now.size posts.now 0 posts.now) }
{
    let mut place = 0;
    let mut rest = posts;
    while let [post, tail @ ..] = rest {
        put_post(svg, plan, names, posts, place, post)?;
        place += 1;
        rest = tail;
    }
    Ok(())
}
