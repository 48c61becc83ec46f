// The reader: where the process, list or expression that begins at a position ends, none if it does not fit. One pass over the words;
// depth falls with every level. Hints on inlining stand where a build with them was measured faster (decision 7); no proof knows of them.
ghost use Rattle.std.specs.Prelude.{ℕ, ◌≡◌, ◌+◌, ◌-◌, ◌%◌, ◌<◌, ◌&&◌, ◌||◌, ◌∷◌, ◌==◌, leb, eqb, length, get_or, unwrap_or, IfSome};
ghost use Rattle.std.specs.List.{list_all, list_any};
ghost use Rattle.sock.specs.Words.{kind_of, first_variable};
ghost use Rattle.sock.specs.Variables.{further_of, distinct};
ghost use Rattle.layout.specs.Contexts.{code, handlers, receiver};
ghost use Rattle.layout.specs.Kinds.{kind_named, number_of};
ghost use Rattle.layout.specs.Keys.{no_key};
ghost use Rattle.reading.specs.Sets.{context_in, unused};
ghost use Rattle.reading.specs.Walk.{kind_at, headed_end, body_at, request_at, one_way_end, one_word, on, context_of, rest_of};
ghost use Rattle.reading.specs.Rests.{RestOf};
ghost use Rattle.reading.specs.Tables.{place_of};
ghost use Rattle.sock.specs.Reading.{placed, guard};
ghost use Rattle.reading.specs.Walk.{end_as, expr_end, leaf_end, operation_end, process_end};
ghost use Rattle.reading.specs.Walk.{variables_end, receiving_end, notify_end, solicit_end, choice_end, list_end};
ghost use Rattle.reading.specs.Walk.{fixed_after, key_as, key_at, entry_context, marked_end, end_after, executor_own, waiter_end, notice_end};

use crate::context::{CODE, Context, HANDLERS, RUNNING};
use layout::context::{CODE as ANYWHERE, CONTEXTS, NOT_NIL, RECEIVER, STRATUM};
use layout::field::{count_of, first_variable, next_variable, second_of};
use layout::key::{NO_KEY, SCOPE_KEYS};
use layout::kind::Kind;
use layout::limit::{BRANCHES, ENGINES, MESSAGE};
use layout::mark::Mark;
use layout::number::{wide, word};
use layout::tag::Tag;
use layout::unit;
use layout::unit::WORD;

// An expression of at most `depth` levels.
#[cycle(expression_operation)]
#[inline(always)]
#[tactic(auto, unfolding(crate::specs::Walk::expr_end, crate::specs::Walk::expr_at, crate::specs::Walk::operation_end, crate::specs::Walk::on, crate::specs::Walk::when))]
pub fn expression(ws: &[u16], at: usize, depth: usize) -> Option<usize>
    ensures { result ≡ end_as (expr_end depth ws.now at) }
{
    if depth == 0 {
        return None;
    }
    if ws.len() <= at {
        return None;
    }
    let head = ws[at];
    let w = wide(head);
    match Tag::of(head) {
        Tag::Constant | Tag::Variable => leaf(ws, at, w),
        _ => operation(ws, at, depth - 1, w),
    }
}

// A constant, which two words follow, or a variable. Which of them takes no jump, since nobody foresees it.
#[tactic(auto, unfolding(crate::specs::Walk::leaf_end, crate::specs::Walk::constant_end, crate::specs::Walk::when))]
fn leaf(ws: &[u16], at: usize, w: usize) -> Option<usize>
    requires { at < length ws.now }
    ensures { result ≡ end_as (leaf_end ws.now at w) }
{
    let constant = w < unit::TAG;
    let spare = if constant { w } else { w % unit::READ_VARIABLE };
    let more = if constant { 2 } else { 0 };
    (spare == 0 && more < ws.len() - at).then_some(at + more + 1)
}

// Two operands.
#[cycle(expression_operation)]
#[inline(never)]
#[tactic(auto, unfolding(crate::specs::Walk::expr_end, crate::specs::Walk::expr_at, crate::specs::Walk::operation_end, crate::specs::Walk::on, crate::specs::Walk::when))]
fn operation(ws: &[u16], at: usize, depth: usize, w: usize) -> Option<usize>
    requires { at < length ws.now }
    ensures { result ≡ end_as (operation_end (expr_end depth ws.now) at w) }
{
    if w % unit::TAG != 0 {
        return None;
    }
    let e = expression(ws, at + 1, depth)?;
    expression(ws, e, depth)
}

// Whether a fixed word follows the head, with its bits below `spare` 0.
#[tactic(auto, unfolding(crate::specs::Walk::fixed_after))]
fn fixed(ws: &[u16], at: usize, spare: usize) -> bool
    requires { (at < length ws.now) × (0 < spare) }
    ensures { result ≡ fixed_after ws.now at spare }
{
    if ws.len() - at < 2 {
        return false;
    }
    wide(ws[at + 1]) % spare == 0
}

// Whether the words are variables: all bits behind those of one are 0.
fn are_variables(words: &[u16]) -> bool
    ensures { result ≡ list_all (λ w. w % 2048 == 0) words.now }
{
    words.iter().all(|w| wide(*w) % unit::FIRST_VARIABLE == 0)
}

// A list of 1 to 4 variables, whose count is at `at`.
#[tactic(auto, using(crate::proofs::VariableWalks::further_all, crate::proofs::VariableWalks::further_short), unfolding(crate::specs::Walk::when, crate::specs::Walk::variables_end))]
fn variables(ws: &[u16], at: usize) -> Option<usize>
    ensures { result ≡ end_as (variables_end ws.now at) }
{
    if ws.len() <= at {
        return None;
    }
    let c = wide(ws[at]);
    if c == 0 || MESSAGE < c || ws.len() - at < c {
        return None;
    }
    let end = at + c;
    are_variables(&ws[at + 1..end]).then_some(end)
}

// Whether one of the words is the variable x.
fn is_among(words: &[u16], x: usize) -> bool
    ensures { result ≡ list_any (λ w. x == first_variable w) words.now }
{
    words.iter().any(|w| x == first_variable(*w))
}

// Whether the variable `first` and those of the words `further` are all different.
#[tactic(auto, using(crate::proofs::VariableWalks::distinct_turn, crate::proofs::VariableWalks::distinct_end))]
fn distinct(first: usize, further: &[u16]) -> bool
    ensures { result ≡ distinct (first ∷ further_of further.now) }
{
    let mut x = first;
    for (i, w) in further.iter().enumerate() {
        if is_among(&further[i..], x) {
            return false;
        }
        x = first_variable(*w);
    }
    true
}

// A list of variables that receive, the first of which stands elsewhere: none of them twice.
#[tactic(auto, using(crate::proofs::VariableWalks::list_lent, crate::proofs::VariableWalks::receiving_lent, crate::proofs::VariableWalks::receiving_none, crate::proofs::Given::as_none))]
fn receiving(ws: &[u16], at: usize, first: usize) -> Option<usize>
    ensures { result ≡ end_as (receiving_end ws.now first at) }
{
    let end = variables(ws, at)?;
    distinct(first, &ws[at + 1..end]).then_some(end)
}

// The key at a position, at least `least`.
#[tactic(auto, unfolding(crate::specs::Walk::key_at))]
fn key_at(ws: &[u16], at: usize, least: usize) -> Option<usize>
    ensures { (result ≡ key_as (key_at ws.now at least)) × IfSome result (λ key. key < 128) }
{
    if ws.len() <= at {
        return None;
    }
    let w = wide(ws[at]);
    if w % unit::KEY != 0 {
        return None;
    }
    let key = w / unit::KEY;
    (least <= key).then_some(key)
}

pub fn met_by(met: bool, key: usize, wanted: usize) -> bool
    ensures { result ≡ (met || eqb key wanted) }
{
    met || key == wanted
}

// A one-way.
#[inline(always)]
#[tactic(auto, unfolding(crate::specs::Walk::one_way_end))]
fn one_way(ws: &[u16], at: usize, head: u16) -> Option<usize>
    requires { at < length ws.now }
    ensures { result ≡ end_as (one_way_end ws.now head at) }
{
    receiving(ws, at + 1, second_of(head))
}

// Where the process behind a request begins: x, then y.
#[tactic(auto, unfolding(crate::specs::Walk::on, crate::specs::Walk::when, crate::specs::Walk::request_at))]
fn request(ws: &[u16], at: usize, head: u16) -> Option<usize>
    requires { at < length ws.now }
    ensures { result ≡ end_as (request_at ws.now head at) }
{
    if !fixed(ws, at, unit::FIRST_VARIABLE) {
        return None;
    }
    let x = receiving(ws, at + 2, second_of(head))?;
    variables(ws, x)
}

#[inline(always)]
#[tactic(auto, unfolding(crate::specs::Walk::when, crate::specs::Walk::notify_end))]
fn notify(ws: &[u16], at: usize) -> Option<usize>
    requires { at < length ws.now }
    ensures { result ≡ end_as (notify_end ws.now at) }
{
    if !fixed(ws, at, unit::FIRST_VARIABLE) {
        return None;
    }
    variables(ws, at + 2)
}

// Under a scope's key in a scope's list nil may not stand.
#[tactic(auto, using(crate::proofs::Sets::entry_stays, crate::proofs::Sets::entry_below, crate::proofs::Sets::entry_full))]
fn entry_context(context: Context, key: usize) -> Context
    ensures { context_in result.kinds ≡ entry_context (context_in context.kinds) key }
{
    if context.kinds != CODE.kinds {
        return context;
    }
    if key < SCOPE_KEYS {
        return context;
    }
    context.not_nil()
}

// The bits of a head that its kind does not use. A scope's are told with its words, since one that is code uses fewer.
#[inline(always)]
#[tactic(auto, unfolding(crate::specs::Sets::unused, sock::specs::Kind::row_of, sock::specs::Kind::rows))]
fn unused(kind: Kind) -> u16
    ensures { result ≡ unused (number_of kind) }
{
    match kind {
        Kind::Nil | Kind::Seq | Kind::Par | Kind::If | Kind::While | Kind::Inst | Kind::Ch => 2047,
        Kind::Assign => 63,
        Kind::Scope => 3,
        Kind::Throw | Kind::Comp | Kind::Notice => 31,
        _ => 0,
    }
}

// Whether a process of this kind is one word.
pub fn is_word(kind: Kind) -> bool
    ensures { result ≡ one_word (number_of kind) }
{
    matches!(kind, Kind::Nil | Kind::Throw | Kind::Comp | Kind::Ch)
}

// Whether a process of this kind may begin a branch.
#[tactic(auto, unfolding(sock::specs::Reading::placed))]
fn hears(kind: Kind) -> bool
    ensures { result ≡ placed guard (number_of kind) }
{
    matches!(kind, Kind::OneWay | Kind::Request)
}

// What is left of a node that was read up to its last process: nothing if it has none, or that process and its context.
#[derive(Clone, Copy)]
enum Rest {
    Nothing(usize),
    Process(usize, Context),
}

// What stays the same all through: the words, and what ends are tested by, n times 65,536 plus issued.
#[derive(Clone, Copy)]
pub struct Reader<'a> {
    pub ws: &'a [u16],
    pub bound: usize,
    pub ghost words: { (i : ℕ) → get_or ws.now i 0 < 65536 },
}

impl<'a> Reader<'a> {
    // The kind of the process that begins at `at`, if it may stand in the context and the head has no bit that the kind does not use.
    #[inline(always)]
    #[tactic(auto, unfolding(crate::specs::Walk::kind_at, crate::specs::Walk::stands_at, crate::specs::Sets::head_stands), using(crate::proofs::Sets::unused_named))]
    pub fn kind(&self, at: usize, depth: usize, context: Context) -> Option<Kind>
        ensures { result ≡ kind_at depth self.now.ws.now context.kinds at }
    {
        if depth == 0 {
            return None;
        }
        if self.ws.len() <= at {
            return None;
        }
        let head = self.ws[at];
        let kind = Kind::of(head);
        if head & unused(kind) != 0 {
            return None;
        }
        context.has(wide(head) / unit::KIND).then_some(kind)
    }

    // A process in a context. One of a single word is told here, where its node is read, so that it takes no call.
    #[cycle(body_choice_guarded_list_marked_node_process_rest_solicit_waiter)]
    #[inline(always)]
    pub fn process(&self, at: usize, depth: usize, context: Context) -> Option<usize>
        ensures { result ≡ end_as (process_end depth self.now.ws.now self.now.bound (context_in context.kinds) at) }
    {
        let kind = self.kind(at, depth, context)?;
        if is_word(kind) {
            return Some(at + 1);
        }
        self.node(at, depth - 1, context, kind)
    }

    // A process whose head was tested. The last process of a node is read in the next turn, the others by calls.
    #[cycle(body_choice_guarded_list_marked_node_process_rest_solicit_waiter)]
    #[inline(never)]
    pub fn node(&self, at: usize, depth: usize, context: Context, kind: Kind) -> Option<usize>
        requires { (at < length self.now.ws.now) × (kind ≡ kind_named (kind_of (get_or self.now.ws.now at 0))) }
        ensures { result ≡ end_as (headed_end (expr_end depth self.now.ws.now) (process_end depth self.now.ws.now self.now.bound) self.now.ws.now (context_in context.kinds) self.now.bound (get_or self.now.ws.now at 0) at) }
    {
        let mut a = at;
        let mut d = depth;
        let mut c = context;
        let mut k = kind;
        loop {
            match self.rest(a, d, c, k)? {
                Rest::Nothing(end) => return Some(end),
                Rest::Process(next, context) => {
                    k = self.kind(next, d, context)?;
                    a = next;
                    c = context;
                    d -= 1;
                }
            }
        }
    }

    // Reads a node up to its last process. One match for all kinds, so that a node takes one jump.
    #[cycle(body_choice_guarded_list_marked_node_process_rest_solicit_waiter)]
    #[inline(always)]
    fn rest(&self, at: usize, depth: usize, context: Context, kind: Kind) -> Option<Rest>
        requires { (at < length self.now.ws.now) × (kind ≡ kind_named (kind_of (get_or self.now.ws.now at 0))) }
        ensures { RestOf self.now.ws.now self.now.bound depth (context_in context.kinds) at result }
    {
        let ws = self.ws;
        let head = ws[at];
        Some(match kind {
            Kind::Nil | Kind::Throw | Kind::Comp | Kind::Ch => Rest::Nothing(at + 1),
            Kind::Assign => Rest::Nothing(expression(ws, at + 1, depth)?),
            Kind::Seq => {
                let a = self.process(at + 1, depth, context.not_nil())?;
                Rest::Process(a, context.code())
            }
            Kind::Par => {
                let side = context.not_nil();
                Rest::Process(self.process(at + 1, depth, side)?, side)
            }
            Kind::If => {
                let chosen = context.code();
                let e = expression(ws, at + 1, depth)?;
                Rest::Process(self.process(e, depth, chosen)?, chosen)
            }
            Kind::While => Rest::Process(expression(ws, at + 1, depth)?, context.code()),
            Kind::Choice => Rest::Nothing(self.choice(at + 1, depth, context, count_of(head))?),
            Kind::OneWay => Rest::Nothing(one_way(ws, at, head)?),
            Kind::Request => Rest::Process(request(ws, at, head)?, context.code()),
            Kind::Notify => Rest::Nothing(notify(ws, at)?),
            Kind::Solicit => Rest::Nothing(self.solicit(at, depth)?),
            Kind::Scope => Rest::Process(self.body(at, depth, context, head)?, context.anywhere()),
            Kind::Inst => Rest::Nothing(self.list(at + 1, depth, HANDLERS, None)?),
            Kind::Executor => Rest::Process(self.executor_own(at)?, RUNNING),
            Kind::Waiter => Rest::Nothing(self.waiter(at, depth, head)?),
            Kind::Notice => Rest::Nothing(self.notice(at)?),
            Kind::Unused => return None,
        })
    }

    // What begins a branch: a one-way or a request.
    #[cycle(body_choice_guarded_list_marked_node_process_rest_solicit_waiter)]
    fn guarded(&self, at: usize, depth: usize, context: Context) -> Option<usize>
        ensures { result ≡ end_as (process_end depth self.now.ws.now self.now.bound (context_of (context_in context.kinds) + receiver) at) }
    {
        if !hears(Kind::of(word(self.ws, at))) {
            return None;
        }
        self.process(at, depth, context.anywhere())
    }

    // The branches of a choice, 1 to 8.
    #[cycle(body_choice_guarded_list_marked_node_process_rest_solicit_waiter)]
    #[tactic(auto, using(crate::proofs::Walks::branches_turn, crate::proofs::Walks::branches_done), unfolding(crate::specs::Walk::on, crate::specs::Walk::when, crate::specs::Walk::two_end, crate::specs::Walk::choice_end))]
    fn choice(&self, at: usize, depth: usize, context: Context, count: usize) -> Option<usize>
        requires { 0 < at }
        ensures { result ≡ end_as (choice_end (process_end depth self.now.ws.now self.now.bound) (rest_of (context_in context.kinds)) count at) }
    {
        if count == 0 || BRANCHES < count {
            return None;
        }
        let c = context.code();
        let mut a = at;
        for _ in 0..count {
            a = self.guarded(a, depth, c)?;
            a = self.process(a, depth, c)?;
        }
        Some(a)
    }

    // A solicit: y, x, and its list.
    #[cycle(body_choice_guarded_list_marked_node_process_rest_solicit_waiter)]
    #[inline(always)]
    #[tactic(auto, unfolding(crate::specs::Walk::on, crate::specs::Walk::when, crate::specs::Walk::solicit_end), using(crate::proofs::Sets::handlers_is, crate::proofs::Sets::handlers_context))]
    fn solicit(&self, at: usize, depth: usize) -> Option<usize>
        requires { at < length self.now.ws.now }
        ensures { result ≡ end_as (solicit_end (process_end depth self.now.ws.now self.now.bound) self.now.ws.now at) }
    {
        if !fixed(self.ws, at, unit::NEXT_VARIABLE) {
            return None;
        }
        let y = variables(self.ws, at + 2)?;
        let x = receiving(self.ws, y, next_variable(word(self.ws, at + 1)))?;
        self.list(x, depth, HANDLERS, None)
    }

    // A list whose entries stand in a context; if a key is wanted, it has to be there.
    #[cycle(body_choice_guarded_list_marked_node_process_rest_solicit_waiter)]
    #[tactic(auto, using(crate::proofs::Walks::entries_turn, crate::proofs::Walks::entries_done, crate::proofs::Walks::key_inside), unfolding(crate::specs::Walk::on, crate::specs::Walk::when, crate::specs::Walk::list_end))]
    pub fn list(
        &self,
        at: usize,
        depth: usize,
        context: Context,
        wanted: Option<usize>,
    ) -> Option<usize>
        ensures { result ≡ end_as (list_end (process_end depth self.now.ws.now self.now.bound) self.now.ws.now (context_in context.kinds) (unwrap_or wanted no_key) at) }
    {
        let ws = self.ws;
        if ws.len() <= at {
            return None;
        }
        let count = wide(ws[at]);
        let mut a = at + 1;
        let mut least = 0;
        let wanted = wanted.unwrap_or(NO_KEY);
        let mut met = NO_KEY <= wanted;
        for _ in 0..count {
            let key = key_at(ws, a, least)?;
            a = self.process(a + 1, depth, entry_context(context, key))?;
            met = met_by(met, key, wanted);
            least = key + 1;
        }
        met.then_some(a)
    }

    // Where the body of the scope at `at` begins. One that is code has no mark, no marked fault, an empty list and is no zombie.
    #[cycle(body_choice_guarded_list_marked_node_process_rest_solicit_waiter)]
    #[inline(always)]
    #[tactic(auto, unfolding(crate::specs::Walk::when, crate::specs::Walk::body_at))]
    fn body(&self, at: usize, depth: usize, context: Context, head: u16) -> Option<usize>
        requires { at < length self.now.ws.now }
        ensures { result ≡ end_as (body_at (process_end depth self.now.ws.now self.now.bound) self.now.ws.now (context_in context.kinds) head at) }
    {
        let ws = self.ws;
        if ws.len() - at < 3 {
            return None;
        }
        let fault = wide(ws[at + 1]);
        if context.runs() {
            return self.marked(at + 2, depth, wide(head), fault);
        }
        (fault == 0 && ws[at + 2] == 0 && second_of(head) == 0).then_some(at + 3)
    }

    // The list of a scope that runs, by its mark.
    #[cycle(body_choice_guarded_list_marked_node_process_rest_solicit_waiter)]
    #[tactic(auto, unfolding(crate::specs::Walk::when, crate::specs::Walk::marked_end), using(crate::proofs::Sets::code_is, crate::proofs::Sets::code_context))]
    pub fn marked(&self, at: usize, depth: usize, h: usize, fault: usize) -> Option<usize>
        ensures { result ≡ end_as (marked_end (process_end depth self.now.ws.now self.now.bound) self.now.ws.now h fault at) }
    {
        match Mark::numbered(h / unit::MARK % unit::MARKS) {
            Mark::Unmarked if fault == 0 => self.list(at, depth, CODE, None),
            Mark::Faulted if fault % unit::FIRST_NAME == 0 => {
                self.list(at, depth, CODE, Some(fault / unit::FIRST_NAME))
            }
            Mark::OwnName if fault == 0 && h / unit::ZOMBIE % 2 == 1 => {
                self.list(at, depth, CODE, None)
            }
            _ => None,
        }
    }

    // The fixed words of an end: the first clear below `spare` and from there up an engine below n, then a serial of 1 to issued.
    #[tactic(auto, unfolding(crate::specs::Walk::end_after))]
    fn end(&self, at: usize, spare: usize) -> bool
        requires { (at < length self.now.ws.now) × (0 < spare) }
        ensures { result ≡ end_after self.now.ws.now at spare self.now.bound }
    {
        let ws = self.ws;
        if ws.len() - at < 3 {
            return false;
        }
        let w = wide(ws[at + 1]);
        let serial = wide(ws[at + 2]);
        if w % spare != 0 {
            return false;
        }
        if self.bound / WORD <= w / spare % ENGINES {
            return false;
        }
        if serial == 0 {
            return false;
        }
        if self.bound % WORD < serial {
            return false;
        }
        true
    }

    // The own words of the executor at `at`, wherever that is: where its body begins.
    #[inline(always)]
    #[tactic(auto, unfolding(crate::specs::Walk::when, crate::specs::Walk::executor_own))]
    pub fn executor_own(&self, at: usize) -> Option<usize>
        ensures { result ≡ end_as (executor_own self.now.ws.now self.now.bound at) }
    {
        if self.ws.len() <= at {
            return None;
        }
        if !self.end(at, unit::EXECUTORS_CLIENT) {
            return None;
        }
        variables(self.ws, at + 3)
    }

    // A waiter.
    #[cycle(body_choice_guarded_list_marked_node_process_rest_solicit_waiter)]
    #[inline(always)]
    #[tactic(auto, unfolding(crate::specs::Walk::on, crate::specs::Walk::when, crate::specs::Walk::waiter_end), using(crate::proofs::Sets::handlers_is, crate::proofs::Sets::handlers_context))]
    fn waiter(&self, at: usize, depth: usize, head: u16) -> Option<usize>
        requires { at < length self.now.ws.now }
        ensures { result ≡ end_as (waiter_end (process_end depth self.now.ws.now self.now.bound) self.now.ws.now head self.now.bound at) }
    {
        if !self.end(at, unit::WAITERS_SERVER) {
            return None;
        }
        let x = receiving(self.ws, at + 3, second_of(head))?;
        self.list(x, depth, HANDLERS, None)
    }

    #[tactic(auto, unfolding(crate::specs::Walk::notice_end, crate::specs::Walk::when))]
    fn notice(&self, at: usize) -> Option<usize>
        requires { at < length self.now.ws.now }
        ensures { result ≡ end_as (notice_end self.now.ws.now self.now.bound at) }
    {
        self.end(at, unit::NOTICES_CLIENT).then_some(at + 3)
    }
}

// Whether a kind may stand at a place (`layout::context`).
#[tactic(auto, unfolding(sock::specs::Reading::placed))]
pub fn may_stand(place: usize, kind: Kind) -> bool
    ensures { result ≡ placed (place_of place) (number_of kind) }
{
    match place {
        ANYWHERE => true,
        NOT_NIL => kind != Kind::Nil,
        RECEIVER => hears(kind),
        _ => matches!(kind, Kind::Nil | Kind::Scope),
    }
}

// The context of what may stand anywhere in a stratum (`layout::context`).
#[tactic(auto, using(crate::proofs::Sets::code_is, crate::proofs::Sets::handlers_is, crate::proofs::Sets::running_is, crate::proofs::Sets::code_context, crate::proofs::Sets::handlers_context, crate::proofs::Sets::running_context))]
fn stratum(number: usize) -> Context
    requires { number < 12 }
    ensures { context_in result.kinds ≡ context_of number }
{
    match number / STRATUM {
        0 => CODE,
        1 => HANDLERS,
        _ => RUNNING,
    }
}

// A process in a context by its number (`layout::context`); nothing stands in one from `CONTEXTS` on.
#[tactic(auto, using(crate::proofs::Beyond::read_beyond, crate::proofs::Given::as_none))]
pub fn read(ws: &[u16], at: usize, depth: usize, context: usize, bound: usize) -> Option<usize>
    ensures { result ≡ end_as (process_end depth ws.now bound context at) }
{
    if CONTEXTS <= context {
        return None;
    }
    if !may_stand(context % STRATUM, Kind::of(word(ws, at))) {
        return None;
    }
    Reader { ws, bound }.process(at, depth, stratum(context))
}
