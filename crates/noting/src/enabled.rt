// The reader of what is enabled, which notes where it ends: an enabled process, what follows an enabled one in a seq, and the list of an
// enabled scope. The notes of a word are told in `skipping::pass`. What is not enabled is read by the reader alone.
ghost use Rattle.std.specs.Prelude.{◌≡◌, ◌+◌, ◌*◌, ◌≤◌, ◌<◌, None, length, get_or};
ghost use Rattle.sock.specs.Words.{kind_of};
ghost use Rattle.layout.specs.Kinds.{kind_named};
ghost use Rattle.layout.specs.Contexts.{code, running, root};
ghost use Rattle.reading.specs.Sets.{context_in};
ghost use Rattle.reading.specs.Walk.{end_as, expr_end, process_end, node_end, two_end, marked_end, scope_end, executor_end};
ghost use Rattle.noting.specs.Noting.{enabled, noted_w, notes_w, enabled_notes, node_notes, seq_notes, par_notes, scope_notes, executor_notes};

use layout::context::{ROOT, STRATUM};
use layout::kind::Kind;
use layout::number::{wide, word, word_of};
use layout::unit;
use reading::context::{CODE, Context, ENABLED, RUNNING};
use reading::reader::{Reader, is_word, may_stand};

// Which of a word's two notes: that of the process that begins there, or that of the list.
const PROCESS: usize = 0;

const LIST: usize = 1;

// What begins at `at` ends at `end`.
fn note<const WHICH: usize>(notes: &mut [u16], at: usize, end: usize)
    requires { WHICH < 2 }
    ensures { notes.new ≡ noted_w WHICH notes.old at end }
{
    if notes.len() <= at {
        return;
    }
    let place = at * 2 + WHICH;
    if place < notes.len() {
        notes[place] = word_of(end);
    }
}

// What begins at `at` ends nowhere: its note is 0. Words with such a process are refused, so this stands aside.
#[cold]
fn no_end(notes: &mut [u16], at: usize) -> Option<usize>
    ensures ended { result ≡ None }
    ensures written { notes.new ≡ noted_w PROCESS notes.old at 0 }
{
    note::<PROCESS>(notes, at, 0);
    None
}

// An enabled process, in a context of what runs. One of a single word is told here, where its node is read, so that it takes no call.
#[cycle(enabled_executor_node_noted_par_scope_seq)]
#[inline(always)]
#[tactic(auto, unfolding(crate::specs::Noting::noting, crate::specs::Noting::note_w), using(reading::proofs::Given::some_end, reading::proofs::Given::none_end))]
pub(crate) fn noted(
    reader: &Reader,
    at: usize,
    depth: usize,
    context: Context,
    notes: &mut [u16],
) -> Option<usize>
    requires { running ≤ context_in context.kinds }
    ensures ended { result ≡ end_as (process_end depth reader.now.ws.now reader.now.bound (context_in context.kinds) at) }
    ensures written { notes.new ≡ notes_w depth reader.now.ws.now reader.now.bound (context_in context.kinds) at notes.old }
{
    match enabled(reader, at, depth, context, notes) {
        Some(e) => {
            note::<PROCESS>(notes, at, e);
            Some(e)
        }
        None => no_end(notes, at),
    }
}

// The same, but for its own note.
#[cycle(enabled_executor_node_noted_par_scope_seq)]
#[inline(always)]
fn enabled(
    reader: &Reader,
    at: usize,
    depth: usize,
    context: Context,
    notes: &mut [u16],
) -> Option<usize>
    requires { running ≤ context_in context.kinds }
    ensures ended { result ≡ end_as (process_end depth reader.now.ws.now reader.now.bound (context_in context.kinds) at) }
    ensures written { notes.new ≡ enabled_notes depth reader.now.ws.now reader.now.bound (context_in context.kinds) at notes.old }
{
    let kind = reader.kind(at, depth, context)?;
    if is_word(kind) {
        return Some(at + 1);
    }
    node(reader, at, depth - 1, context, kind, notes)
}

// A process whose head was tested.
#[cycle(enabled_executor_node_noted_par_scope_seq)]
#[inline(never)]
fn node(
    reader: &Reader,
    at: usize,
    depth: usize,
    context: Context,
    kind: Kind,
    notes: &mut [u16],
) -> Option<usize>
    requires { (at < length reader.now.ws.now) × (kind ≡ kind_named (kind_of (get_or reader.now.ws.now at 0))) × (running ≤ context_in context.kinds) }
    ensures ended { result ≡ end_as (node_end (expr_end depth reader.now.ws.now) (process_end depth reader.now.ws.now reader.now.bound) reader.now.ws.now (context_in context.kinds) reader.now.bound (get_or reader.now.ws.now at 0) at) }
    ensures written { notes.new ≡ node_notes (process_end depth reader.now.ws.now reader.now.bound) (notes_w depth reader.now.ws.now reader.now.bound) reader.now.ws.now reader.now.bound (get_or reader.now.ws.now at 0) at notes.old }
{
    match kind {
        Kind::Par => par(reader, at + 1, depth, notes),
        Kind::Seq => seq(reader, at + 1, depth, notes),
        Kind::Scope => scope(reader, at, depth, reader.ws[at], notes),
        Kind::Executor => executor(reader, at, depth, notes),
        _ => reader.node(at, depth, context, kind),
    }
}

// The parts of a seq: the first is enabled.
#[cycle(enabled_executor_node_noted_par_scope_seq)]
#[tactic(auto, unfolding(reading::specs::Walk::on, reading::specs::Walk::two_end, crate::specs::Noting::note_w, crate::specs::Noting::seq_notes), using(reading::proofs::Given::some_end, reading::proofs::Given::none_end, reading::proofs::Sets::enabled_is, reading::proofs::Sets::enabled_context, reading::proofs::Sets::code_is, reading::proofs::Sets::code_context))]
fn seq(reader: &Reader, at: usize, depth: usize, notes: &mut [u16]) -> Option<usize>
    ensures ended { result ≡ end_as (two_end (process_end depth reader.now.ws.now reader.now.bound) enabled code at) }
    ensures written { notes.new ≡ seq_notes (process_end depth reader.now.ws.now reader.now.bound) (notes_w depth reader.now.ws.now reader.now.bound) at notes.old }
{
    let a = noted(reader, at, depth, ENABLED, notes)?;
    match reader.process(a, depth, CODE) {
        Some(e) => {
            note::<PROCESS>(notes, a, e);
            Some(e)
        }
        None => no_end(notes, a),
    }
}

// The sides of a par.
#[cycle(enabled_executor_node_noted_par_scope_seq)]
#[inline(always)]
#[tactic(auto, unfolding(reading::specs::Walk::on, reading::specs::Walk::two_end, crate::specs::Noting::par_notes), using(reading::proofs::Sets::enabled_is, reading::proofs::Sets::enabled_context))]
fn par(reader: &Reader, at: usize, depth: usize, notes: &mut [u16]) -> Option<usize>
    ensures ended { result ≡ end_as (two_end (process_end depth reader.now.ws.now reader.now.bound) enabled enabled at) }
    ensures written { notes.new ≡ par_notes (process_end depth reader.now.ws.now reader.now.bound) (notes_w depth reader.now.ws.now reader.now.bound) at notes.old }
{
    let a = noted(reader, at, depth, ENABLED, notes)?;
    noted(reader, a, depth, ENABLED, notes)
}

// Where the list of the scope at `at`, whose head is `head`, ends. An empty one of a scope with no mark takes no call.
#[tactic(auto, using(crate::proofs::Notes::bare_list))]
fn listed(reader: &Reader, at: usize, depth: usize, head: u16) -> Option<usize>
    requires { at + 2 < length reader.now.ws.now }
    ensures { result ≡ end_as (marked_end (process_end depth reader.now.ws.now reader.now.bound) reader.now.ws.now head (get_or reader.now.ws.now (at + 1) 0) (at + 2)) }
{
    let h = wide(head);
    let fault = wide(reader.ws[at + 1]);
    if h / unit::MARK % unit::MARKS + fault + wide(reader.ws[at + 2]) == 0 {
        return Some(at + 3);
    }
    reader.marked(at + 2, depth, h, fault)
}

// A scope whose head is `head`.
#[cycle(enabled_executor_node_noted_par_scope_seq)]
#[tactic(auto, unfolding(reading::specs::Walk::on, reading::specs::Walk::when, reading::specs::Walk::scope_end, crate::specs::Noting::note_list_w, crate::specs::Noting::body_notes, crate::specs::Noting::scope_notes), using(reading::proofs::Sets::running_is, reading::proofs::Sets::running_context))]
fn scope(reader: &Reader, at: usize, depth: usize, head: u16, notes: &mut [u16]) -> Option<usize>
    requires { at < length reader.now.ws.now }
    ensures ended { result ≡ end_as (scope_end (process_end depth reader.now.ws.now reader.now.bound) reader.now.ws.now running head at) }
    ensures written { notes.new ≡ scope_notes (process_end depth reader.now.ws.now reader.now.bound) (notes_w depth reader.now.ws.now reader.now.bound) reader.now.ws.now head at notes.old }
{
    if reader.ws.len() - at < 3 {
        return None;
    }
    let e = listed(reader, at, depth, head)?;
    note::<LIST>(notes, at + 2, e);
    noted(reader, e, depth, RUNNING, notes)
}

#[cycle(enabled_executor_node_noted_par_scope_seq)]
#[tactic(auto, unfolding(reading::specs::Walk::on, reading::specs::Walk::executor_end, crate::specs::Noting::executor_notes), using(reading::proofs::Sets::running_is, reading::proofs::Sets::running_context))]
fn executor(reader: &Reader, at: usize, depth: usize, notes: &mut [u16]) -> Option<usize>
    ensures ended { result ≡ end_as (executor_end (process_end depth reader.now.ws.now reader.now.bound) reader.now.ws.now reader.now.bound at) }
    ensures written { notes.new ≡ executor_notes (notes_w depth reader.now.ws.now reader.now.bound) reader.now.ws.now reader.now.bound at notes.old }
{
    let body = reader.executor_own(at)?;
    noted(reader, body, depth, RUNNING, notes)
}

// What an engine runs: nil or a scope.
#[tactic(auto, unfolding(reading::specs::Walk::when))]
pub(crate) fn root(reader: &Reader, at: usize, depth: usize, notes: &mut [u16]) -> Option<usize>
    ensures ended { result ≡ end_as (process_end depth reader.now.ws.now reader.now.bound root at) }
    ensures written { notes.new ≡ notes_w depth reader.now.ws.now reader.now.bound root at notes.old }
{
    if !may_stand(ROOT % STRATUM, Kind::of(word(reader.ws, at))) {
        return no_end(notes, at);
    }
    noted(reader, at, depth, RUNNING, notes)
}
