//! The verdict on the messages of a log, as a line, and all its breaches.
ghost use Rattle.std.specs.List.{flat_map};
ghost use Rattle.std.specs.Option.{option_copied};
ghost use Rattle.text_fields.specs.Writing.{Writes};
ghost use Rattle.log_text.specs.Verdicts.{breaches_text, broken_text, more_text, told_by, told_text, verdict_text};

use message_judge::{Breaches, Broken, MessageVerdict};
use std::io::{self, Write};
use text_fields::{Piece, put_pieces};

/// Writes `lawful`, or `unlawful`, the rule's name and the message's index, counted from 0. After the writer's
/// fault a beginning of the line went out.
pub fn put_verdict<W: Write>(verdict: MessageVerdict, out: &mut W) -> io::Result<()>
    ensures { Writes (W.contents out.old) (W.contents out.new) (verdict_text verdict) result }
{
    match verdict {
        MessageVerdict::Lawful => put_pieces(out, &[Piece::Text(b"lawful\n")]),
        MessageVerdict::Unlawful { breach, index } => put_pieces(
            out,
            &[
                Piece::Text(b"unlawful "),
                Piece::Text(breach.rule_name().as_bytes()),
                Piece::Text(b" "),
                Piece::Number(index as u64),
                Piece::Text(b"\n"),
            ],
        ),
    }
}

/// Writes the breaches as such lines, where they are asked for and there are some, with a line behind them that says how
/// many more there are, and else the verdict. After the writer's fault a beginning of it went out.
pub fn put_told<W: Write>(
    verdict: MessageVerdict,
    breaches: Option<&Breaches>,
    out: &mut W,
) -> io::Result<()>
    ensures { Writes (W.contents out.old) (W.contents out.new) (told_text verdict (option_copied breaches.entry)) result }
{
    match breaches {
        Some(breaches) => put_listed(verdict, breaches, out),
        None => put_verdict(verdict, out),
    }
}

fn put_listed<W: Write>(verdict: MessageVerdict, breaches: &Breaches, out: &mut W) -> io::Result<()>
    ensures { Writes (W.contents out.old) (W.contents out.new) (told_by breaches.now.listed.items verdict breaches.now) result }
{
    if breaches.listed.is_empty() {
        put_verdict(verdict, out)
    } else {
        put_breaches(breaches, out)
    }
}

fn put_breaches<W: Write>(breaches: &Breaches, out: &mut W) -> io::Result<()>
    ensures { Writes (W.contents out.old) (W.contents out.new) (breaches_text breaches.now) result }
{
    let listed = breaches.listed.as_slice();
    put_each(listed, out)?;
    put_more(breaches.count.saturating_sub(listed.len()), out)
}

fn put_each<W: Write>(listed: &[Broken], out: &mut W) -> io::Result<()>
    ensures { Writes (W.contents out.old) (W.contents out.new) (flat_map broken_text listed.now) result }
{
    for broken in listed {
        put_broken(*broken, out)?;
    }
    Ok(())
}

fn put_broken<W: Write>(broken: Broken, out: &mut W) -> io::Result<()>
    ensures { Writes (W.contents out.old) (W.contents out.new) (broken_text broken) result }
{
    put_verdict(
        MessageVerdict::Unlawful {
            breach: broken.breach,
            index: broken.index,
        },
        out,
    )
}

fn put_more<W: Write>(more: usize, out: &mut W) -> io::Result<()>
    ensures { Writes (W.contents out.old) (W.contents out.new) (more_text more) result }
{
    if more == 0 {
        return Ok(());
    }
    put_pieces(out, &[Piece::Number(more as u64), Piece::Text(b" more\n")])
}
