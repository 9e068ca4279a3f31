// The arguments of an event, as the member args.
#![tactic(auto)]

ghost use Rattle.std.specs.Prelude.{◌≡◌};
ghost use Rattle.words.specs.Writing.{Adds};
ghost use Rattle.shapes.specs.Shapes.{text_member, number_member, flag_member, display_member, test_members, pair_members, run_instant_members, cancel_members, retry_begin_members, test_end_members, test_slow_members, script_members, running_counts_members, result_counts_members, members_text, arguments_text};
ghost use Rattle.shapes.specs.Laws.{ArgumentsShown};

use outs::Out;
use trace::{ARGUMENTS, ArgumentKind};
use words::Writer;

// What a member shows is one of four things. A trait for them, with an impl for each, would be longer than the four
// functions; and a struct of the writer, a key and a number would stand for one call.
fn text_member<O: Out>(w: &mut Writer<O>, key: &[u8], n: u64)
    ensures { Adds O.Out w.old (λ show. text_member show key.now n) w.new }
{
    w.put(key);
    w.text(n);
    w.put(b"\"");
}

fn number_member<O: Out>(w: &mut Writer<O>, key: &[u8], n: u64)
    ensures { Adds O.Out w.old (λ _. number_member key.now n) w.new }
{
    w.put(key);
    w.number(n);
}

fn flag_member<O: Out>(w: &mut Writer<O>, key: &[u8], n: u64)
    ensures { Adds O.Out w.old (λ _. flag_member key.now n) w.new }
{
    w.put(key);
    w.flag(n);
}

fn display_member<O: Out>(w: &mut Writer<O>, key: &[u8], code: u64, n: u64)
    ensures { Adds O.Out w.old (λ show. display_member show key.now code n) w.new }
{
    w.put(key);
    w.display(code, n);
    w.put(b"\"");
}

// Which test it is.
fn test_members<O: Out>(w: &mut Writer<O>, binary: u64, test: u64)
    ensures { Adds O.Out w.old (λ show. test_members show binary test) w.new }
{
    text_member(w, b"\"binary_id\":\"", binary);
    text_member(w, b",\"test_name\":\"", test);
}

// The first two numbers, behind these keys.
fn pair_members<O: Out>(w: &mut Writer<O>, first: &[u8], second: &[u8], ns: &[u64; ARGUMENTS])
    ensures { Adds O.Out w.old (λ _. pair_members first.now second.now ns.now) w.new }
{
    number_member(w, first, ns[0]);
    number_member(w, second, ns[1]);
}

// How many tests and setup scripts run, as an instant of the run tells it.
fn run_instant_members<O: Out>(w: &mut Writer<O>, ns: &[u64; ARGUMENTS])
    ensures { Adds O.Out w.old (λ _. run_instant_members ns.now) w.new }
{
    pair_members(w, b"\"running\":", b",\"setup_scripts_running\":", ns);
}

fn cancel_members<O: Out>(w: &mut Writer<O>, ns: &[u64; ARGUMENTS])
    ensures { Adds O.Out w.old (λ show. cancel_members show ns.now) w.new }
{
    run_instant_members(w, ns);
    text_member(w, b",\"reason\":\"", ns[2]);
}

fn retry_begin_members<O: Out>(w: &mut Writer<O>, ns: &[u64; ARGUMENTS])
    ensures { Adds O.Out w.old (λ show. retry_begin_members show ns.now) w.new }
{
    test_members(w, ns[0], ns[1]);
    number_member(w, b",\"attempt\":", ns[2]);
    number_member(w, b",\"total_attempts\":", ns[3]);
}

fn test_end_members<O: Out>(w: &mut Writer<O>, ns: &[u64; ARGUMENTS])
    ensures { Adds O.Out w.old (λ show. test_end_members show ns.now) w.new }
{
    test_members(w, ns[0], ns[1]);
    number_member(w, b",\"attempt\":", ns[4]);
    number_member(w, b",\"total_attempts\":", ns[5]);
    flag_member(w, b",\"is_slow\":", ns[6]);
}

fn test_slow_members<O: Out>(w: &mut Writer<O>, ns: &[u64; ARGUMENTS])
    ensures { Adds O.Out w.old (λ show. test_slow_members show ns.now) w.new }
{
    test_members(w, ns[0], ns[1]);
    flag_member(w, b",\"will_terminate\":", ns[4]);
    number_member(w, b",\"attempt\":", ns[5]);
}

// Which setup script it is, and a flag of it.
fn script_members<O: Out>(w: &mut Writer<O>, flag: &[u8], ns: &[u64; ARGUMENTS])
    ensures { Adds O.Out w.old (λ show. script_members show flag.now ns.now) w.new }
{
    text_member(w, b"\"script_id\":\"", ns[0]);
    flag_member(w, flag, ns[3]);
}

fn running_counts_members<O: Out>(w: &mut Writer<O>, ns: &[u64; ARGUMENTS])
    ensures { Adds O.Out w.old (λ _. running_counts_members ns.now) w.new }
{
    pair_members(w, b"\"running_tests\":", b",\"running_scripts\":", ns);
}

fn result_counts_members<O: Out>(w: &mut Writer<O>, ns: &[u64; ARGUMENTS])
    ensures { Adds O.Out w.old (λ _. result_counts_members ns.now) w.new }
{
    number_member(w, b"\"passed\":", ns[0]);
    number_member(w, b",\"flaky\":", ns[1]);
    number_member(w, b",\"failed\":", ns[2]);
}

// The members, by the kind of the arguments: a match that the compiler holds against all kinds.
fn members<O: Out>(w: &mut Writer<O>, kind: ArgumentKind, ns: &[u64; ARGUMENTS])
    ensures { Adds O.Out w.old (λ show. members_text show kind ns.now) w.new }
{
    match kind {
        ArgumentKind::Absent => {}
        ArgumentKind::RunInstant => run_instant_members(w, ns),
        ArgumentKind::CancelInstant => cancel_members(w, ns),
        ArgumentKind::TestBegin => test_members(w, ns[0], ns[1]),
        ArgumentKind::RetryBegin => retry_begin_members(w, ns),
        ArgumentKind::TestEnd => test_end_members(w, ns),
        ArgumentKind::TestSlow => test_slow_members(w, ns),
        ArgumentKind::ScriptEnd => script_members(w, b",\"is_slow\":", ns),
        ArgumentKind::ScriptSlow => script_members(w, b",\"will_terminate\":", ns),
        ArgumentKind::RunningCounts => running_counts_members(w, ns),
        ArgumentKind::ResultCounts => result_counts_members(w, ns),
        ArgumentKind::MetadataName => display_member(w, b"\"name\":\"", ns[0], ns[1]),
        ArgumentKind::SortIndex => number_member(w, b"\"sort_index\":", ns[0]),
    }
}

// The member args, by the code of the arguments' kind.
pub fn arguments<O: Out>(w: &mut Writer<O>, code: u64, ns: &[u64; ARGUMENTS])
    ensures { Adds O.Out w.old (λ show. arguments_text show code ns.now) w.new }
{
    match ArgumentKind::try_from(code) {
        Ok(ArgumentKind::Absent) => {}
        Ok(kind) => {
            w.put(b",\"args\":{");
            members(w, kind, ns);
            w.put(b"}");
        }
        Err(_) => w.refuse(),
    }
}

// The arguments are shown as what their kind and numbers stand for.
pub fn shapes_stand()
    ensures { ArgumentsShown }
{}
