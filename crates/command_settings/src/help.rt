//! What `--help` tells below the arguments.

pub(crate) const PROGRAM_HELP: &str =
    "A replay takes a program and a script of events, and prints the trace of what happened:
each instruction, each memory operation and each message between caches and memory.
An explain takes the same, and tells below each event what it did. A chart takes it too, and draws it;
a page shows it in a browser.
A run takes a program alone: its harts run side by side, and what happened is kept as a script.
An explore takes a program alone, and tells every end that the machine can bring it to.
A check takes a trace and tells whether the memory model allows its order, or whether its messages are lawful.
A litmus takes litmus tests and answers them as herd7 does; rvtl litmus --help has its arguments.

Example: rvtl replay --raw examples/exit.bin examples/exit.script";

pub(crate) const REPLAY_HELP: &str = "The script's first line is one of
  rvtl-script 1 HARTS KIB SETS WAYS        up to 4 harts, with lines of 16 bytes
  rvtl-script 2 HARTS KIB SETS WAYS LINE   more harts, or lines of 64 bytes
HARTS is 1 to 8, KIB (main memory) a multiple of 4 from 4 to 1024, SETS (of each cache) a power of two
to 64, WAYS (lines a set) 1 to 4, LINE 16 or 64. Then comes an event a line:
  step HART              the hart retires its next instruction, or asks for what it lacks
  drain HART ADDRESS     a store leaves the store buffer for the cache
  evict HART ADDRESS     the cache gives a line up
  deliver CHANNEL HART   the oldest message on channel A, B, C, D or E arrives
  local HART COUNT       so many instructions at once, 1 to 256, that touch no memory, fence
                         nothing and call nothing
ADDRESS is 0x and 8 lower-case digits, of a word to drain or a line to evict. One blank stands between
words, and a line feed alone ends each line.

Each hart has a store buffer of 8 entries, and a cache of which at most 4 Acquires (its MSHRs) and 4
Releases are outstanding; AMOs are carried out in the cache. A hart begins with its number in a0
and the number of harts in a1. An ECALL with 1 in a7 puts a0 out, with 0 it ends the hart, whose exit
code is a0 modulo 256. Compressed and floating-point instructions are not supported.

The trace goes to standard output. Of each hart how it ended (run, stop CODE or exit CODE) and what
it put out go to standard error. Where something is wrong with a file, standard error tells it in one line.
A hart stops at an instruction that it can't carry out:
  0 jump target misaligned    3 EBREAK                 6 store, LR, SC or AMO misaligned
  1 fetch outside memory      4 load misaligned        7 store, LR, SC or AMO outside memory
  2 illegal instruction       5 load outside memory    8 unknown call

Example: rvtl replay --raw examples/exit.bin examples/exit.script";

pub(crate) const EXPLAIN_HELP: &str =
    "The stream goes to standard output: the head of a trace and its I lines, then of each event
  E LINE EVENT OUTCOME   the event on this line of the script, and what it came to
and below it what it added to the trace, each R line with its instruction behind a semicolon,
  O HART NUMBER          and what its hart put out
and at the end each hart's H line: behind it, what its next step would come to, the words or lines that
this waits for, and the instruction; of one that stopped, why. An event that changes nothing has its
E line alone, Busy and Releasing with what the message waits for: its line, that line's transaction, and
which message of which harts. With --strict the stream ends before such an event, the status is 1, and
standard error tells the line and the outcome.
Where an ELF file has symbols, the instruction's own address stands before it, and where a branch or
JAL leads behind it, as the last name at or below and how far behind, in hexadecimal:
  ; <take+0x4> bne t3, zero, 0x8000000c <take>

Retired, Drained, Delivered, Evicted, Missed LINE (an Acquire of the line went out), Stopped CODE and
Exited CODE change the machine. The other outcomes tell why nothing happened:
  Halted          the hart has ended
  WaitRelease     the cache's Release of the line is unanswered
  WaitGrant       the cache's Acquire of the line is unanswered
  NoTracker       4 Acquires are outstanding (each MSHR is taken)
  SetFull         the line's set has no room for it: evict a line of the set
  BufferFull      the store buffer is full: drain an entry
  MustDrain       stores that wait have to drain first
  NoEntry         no store to this word waits
  NotOldest       of the oldest stores that wait, none is to this word
  Empty           no message waits there
  Busy            the line's transaction isn't over
  Releasing       the probed cache's Release of the line is unanswered
  AckFull         4 GrantAcks wait: deliver one on channel E
  NotHeld         the cache doesn't hold the line
  AcquirePending  the cache's Acquire of the line is unanswered
  ReleaseFull     4 Releases are unanswered
  NotLocal        one of the next instructions touches memory, or stops

With --state there follows what the machine holds at the end. Of each hart
  X HART NAME VALUE         its pc, and each register that isn't zero
  B HART GROUP WORD BYTES   a store that waits: group 0 drains first, -- is a byte that it leaves
  L HART WORD               its reservation
  C HART LINE STATE         its cache's copy: Branch, Trunk or dirty Trunk
  A HART LINE               its cache's Acquire of the line is unanswered
  U HART LINE               its cache's Release of the line is unanswered
  Q CHANNEL HART MESSAGE    a message that waits, as in an M line but without data, the next one first
and then of memory's lines
  N HART LINE PERMISSION    what the manager has noted of the hart, and whether its ProbeAck is awaited
  G HART LINE Probing GROW  ProbeAcks are awaited before the hart's Grant
  G HART LINE Granted       the hart's GrantAck is awaited
  D LINE BYTES              main memory has these bytes, and had others at reset

With --vcd there is no stream but a value change dump (IEEE 1364), which GTKWave shows; --strict and --state say
nothing then. Time N is behind the event on line N of the script, 1 is reset. Where an event is refused there is
none. Signals of each hart
  pc, instruction (retired last), status (0 runs, 1 stopped, 2 exited), code
  stores (that wait), oldest_word, oldest_bytes, oldest_mask, reserved, reserved_word
and in modules A to E of each channel between its cache and the manager
  length, front (0 none, 1 AcquireBlock, 2 ProbeBlock, 3 ProbeAck, 4 ProbeAckData, 5 Release, 6 ReleaseData,
  7 Grant, 8 GrantData, 9 ReleaseAck, 10 GrantAck), front_line
and in a module of each line that a message was about
  permission (of each hart's cache: 0 Nothing, 1 Branch, 2 Trunk), dirty, acquiring, releasing
  record (what the manager has noted of the hart), awaited (its ProbeAck)
  transaction (0 none, 1 ProbeAcks are awaited, 2 the GrantAck is), requester

Example: rvtl explain --raw examples/load.bin examples/load.script";

pub(crate) const CHART_HELP: &str =
    "The picture is an SVG file on standard output: time goes down, with a row for each event that changed the
machine, and lanes for each hart's core and cache and for the manager of memory. Core lanes show what the
hart retired, cache lanes the permission held for each line, and arrows the messages, from where they were
sent to where they arrived. A script that makes more than 400 rows, or more than 65,535 lines of text, is not
drawn: --line has fewer.

Example: rvtl chart --raw examples/load.bin examples/load.script > load.svg";

pub(crate) const PAGE_HELP: &str =
    "The page is an HTML file on standard output that needs nothing from outside: open it in a browser. Of a script
it draws the events, with the messages between caches and memory, and beside them what the machine holds
after the event that is chosen, by a click or the arrow keys: registers, stores that wait, the bytes of each
cache's lines, messages on their way, and what the manager of memory has noted; # and a number behind the
file's name begin with that event. Of a trace, as of explore --architecture, it draws each hart's operations
with the order in which they were performed, where loads read, and what orders them. Behind the page's last
tag stands what explain --state prints, and where there is a fault nothing: the page says so.

Example: rvtl page --raw examples/load.bin examples/load.script > load.html";

pub(crate) const LINE_HELP: &str =
    "draw the messages and permissions of the line with this address alone (decimal, or hexadecimal behind 0x)";

pub(crate) const RUN_HELP: &str =
    "Each hart runs in a thread of its own. When all have halted, or after so many events, the events that
changed the machine are written into the journal, the trace goes to standard output, and how each
hart ended (run, stop CODE or exit CODE) and what it put out go to standard error. replay of the
journal, with the same --raw and --model, prints the same trace; replay --help has the CODEs of stops.

Example: rvtl run --raw --journal exit.journal examples/exit.bin";

pub(crate) const EXPLORE_HELP: &str =
    "Prints an outcome a line, numbered: of each hart how it ended (stop CODE, by replay --help, or exit CODE)
and what it put out. The order of the lines is fixed. The last line is one of
  complete: N outcomes, M states      no schedule of the machine brings the program to another end or failure
  incomplete: LIMIT states met        the outcomes are some of those that there are
  incomplete: out of memory           so are they here, and the status is 4
Before it, where there are any,
  failure N  hart H: stop CODE at PC  a hart that stops, whatever the others do; behind it how they stood then,
                                      each PC with its symbol where an ELF file has some
  stuck: N states from which no schedule ends
With --show, the final word at an address or symbol stands behind the harts, and an end is one at which
no store waits:
  1  hart 0: exit 0   hart 1: exit 0   counter = 0x00000002
With --scripts, events that an outcome doesn't need are left out of its script. At most 1,000,000 events
are played to find them, and 40,000,000 for all outcomes and failures (of random runs, 1,000,000 for each).
With --whole they stay: all that happened on the way there, as a race in a random run that its end doesn't need.
With --first the search ends at the first hart that stops, and at the first outcome that isn't in the file of
--allow; the last line is then
  incomplete: ended at the first, M states met
The machine carries loads out as they retire, so that what a missing fence between two loads allows is
not among the outcomes. With --architecture it is: behind each outcome and failure stands whether this
machine shows it, or the memory model alone allows it; its words are those behind all operations. It doesn't look
for states from which no schedule ends. The last line is
  complete: N outcomes, M states      no order that the memory model allows brings the program to another end
                                      or failure
or incomplete: and the limit that was met. With --sample, random runs are made and counted instead, each of
at most 1,000,000 tried events, and the last line is sampled: RUNS runs, not complete; --architecture,
--show, --first or --seconds don't go with it. With --until such runs are looked through for a message, and the
script of the shortest way to it is printed, without events that it doesn't need, or with --whole with them;
standard error tells its run. Nothing that is said of ends goes with it.
--seed says nothing without --sample or --until, --whole nothing without --scripts or --until, --window nothing
without --architecture, --states nothing with --sample or --until.

Example: rvtl explore --harts 2 examples/dekker.elf";

pub(crate) const FENCES_HELP: &str =
    "An ordering is a FENCE, or a bit aq or rl of an LR, SC or AMO. The memory model's outcomes are searched (as
by explore --architecture) for the program as it is, and without each ordering: a nop in place of the FENCE,
the bit cleared. Of each is told
  not needed                      both searches found the same outcomes, and met no bound
  needed: without it OUTCOME      the program as it is doesn't have this outcome
  undecided, BOUND                no other outcome was found, and this bound was met
and below a FENCE that is needed
  enough: FENCE                   the outcomes are the same with this one, and with no weaker one
The line behind them tells orderings that are enough together: from all, one after another was left out by
addresses, and then each FENCE made weaker, where the outcomes stayed the same; none of those told can be
left out. Another order may leave others. The last line is
  searched: N orderings, P programs, M outcomes of the program as it is
or undecided: the program as it is, and the bound that its search met. With --allow it is asked of each program
that all its outcomes are in the file. Where one of the program as it is isn't, the status is 3, and told are
  not allowed: OUTCOME            the first that isn't in the file
  missing: PC OLD -> NEW          each word that has to order more for no such outcome to come: a FENCE, an LR,
                                  SC or AMO, or a nop (addi x0, x0, 0), which may become a FENCE
or that not all of these together are enough. None of those told can be left out.
With --show, the final word at an address or symbol belongs to an outcome, and stands behind its harts:
  hart 0: exit 0   hart 1: exit 0   counter = 0x00000002
With --write, the file is the program's own but for the words told last; nothing is written where none were found.
With --machine, --window says nothing.
A word of data that looks like such an instruction counts as one. What is told holds of so many harts, and of
this program's own data.

Example: rvtl fences --harts 2 examples/mcs_lock.elf";

pub(crate) const SHOW_HELP: &str =
    "show the word of memory at this address (decimal, or hexadecimal behind 0x) or symbol, or so many bytes behind one (counter+4), in each outcome, which then ends only once no store waits; may be given again";

pub(crate) const SCRIPTS_HELP: &str =
    "the folder, which has to exist, to write outcome-1.script .., failure-1.script .. and stuck.script into, each for replay; and outcome-1.trace .., each for check, of outcomes that this machine wasn't found to show. Other files there stay, also those of an earlier search";

pub(crate) const WITNESSES_HELP: &str =
    "the folder, which has to exist, to write a run into for each ordering that is told as needed, with that ordering left out: needed-1.trace .., each for check, in the order of the lines told, or with --machine needed-1.script .., each for replay. Other files there stay, also those of an earlier search";

pub(crate) const ALLOW_HELP: &str =
    "the file with the allowed outcomes, a line each as printed, with or without its number, and with a * for any number in it; where another is found it is told and the status is 3";

pub(crate) const FAIL_ON_HELP: &str =
    "what the search may not come to, with a comma between each two: failure (a hart stopped, whatever the others do then; with --sample only in an outcome), stuck (from some state no schedule ends), incomplete (not all was searched); where it comes to one it is told and the status is 3";

pub(crate) const UNTIL_HELP: &str =
    "make random runs, 1000 or as many as --sample says, and print the shortest script found that sends this message: its name and hart and an address in its line, as in a trace, and * for any of them, as 'ReleaseData 0 *'; where none of the runs sends it the status is 3";

pub(crate) const CHECK_HELP: &str =
    "Prints legal, or with status 3 a fault: its code and two operations, as HART:PLACE, that show it.
PLACE counts the hart's R lines from 0. Codes 1 to 13 are the rules of preserved program order, by which
the first has to be performed before the second:
   1 the second is a store, and they overlap
   2 both load a byte to which no store stands between them, from different writes
     (the image is one)
   3 the second loads what the first, an AMO or SC, wrote
   4 a FENCE orders them
   5 the first acquires, as every load does under Ztso
   6 the second releases, as every store does under Ztso
   7 both have RCsc annotations
   8 they are an LR and its SC
   9 the second's address depends on the first
  10 what the second stores depends on the first
  11 the second is a store, behind a branch or a JALR that depends on the first
  12 the second loads from a store between them that depends on the first
  13 the second is a store, behind an access whose address depends on the first
14 is the load value axiom (both are the load), 15 the atomicity axiom (an LR and its SC).

With --messages the trace may end behind its M lines, and need not come from rvtl; --model says nothing then.
It prints lawful, or with status 3 unlawful, a rule and the number of the message, from 0, that breaks it.
Where a question has no answer by the end, a note tells; with --ended the first such question is unlawful.
With --all each message that breaks a rule is told, up to 100, and then how many there are. With --skip
messages of other opcodes (as Get, PutFullData, Hint) are passed over and counted; else they are refused.
With --profile tilelink a Grant may have data where the copy is still held, and may answer NtoB with toT.
A message is M s CHANNEL HART .. where it is sent, M t CHANNEL HART .. where it is taken, with behind it
  on A  AcquireBlock LINE NtoB, NtoT or BtoT
  on B  ProbeBlock LINE toT, toB or toN
  on C  ProbeAck LINE, Release LINE and TtoB, TtoN, BtoN, TtoT, BtoB or NtoN; or
        ProbeAckData LINE, ReleaseData LINE and the same, then DATA
  on D  Grant LINE and toT, toB or toN; GrantData LINE and the same, then DATA; or ReleaseAck LINE
  on E  GrantAck LINE
LINE is a line's address, 0x and 8 lower-case digits; DATA has 2 for each byte of the line, the lowest first.

Example: rvtl check examples/legal.trace";
