ghost use Rattle.std.specs.Prelude.{◌≡◌, ◌+◌, ◌==◌, Result};
ghost use Rattle.rulebook.specs.Answer.{allowed, by_number};
ghost use Rattle.policies.specs.DepthLaw.{Lawful};
ghost use Rattle.policies.specs.DepthTag.{cell_tag, register_tag};
ghost use Rattle.policies.specs.DepthViolation.{violation_number};
ghost use Rattle.policies.specs.DepthIsolation.{on_move as moving, reach as reaching, on_load as loading, on_call as calling, on_ret as returning, on_post as posting, plain_store, frame_store, ordinary_store, claiming_store, clearing_store, on_store as storing, on_op as ruled, ruling, depth_isolation};
ghost use Rattle.std.proofs.Common.{rules};

use super::tags::{CellTag, Code, RegisterTag};
use super::violation::DepthViolation;
use rulebook::{Group, Narrow, NarrowAnswer, Question, Tags, Violation};

/// Keeps each call depth's frame apart from every other's.  It has no state: an answer depends on
/// the question alone.
#[derive(Clone, Copy, Debug)]
pub struct DepthIsolation;

// The tags that the rules allow, or why not.
type Ruling = Result<Tags, DepthViolation>;

impl Narrow for DepthIsolation {
    ghost rules = { λ _. depth_isolation };

    ghost narrow = { Prim.search rules };

    fn decide(&self, q: Question) -> NarrowAnswer
        ensures answers { result ≡ depth_isolation q }
        ensures lawful { Lawful q result }
    {
        judged(q)
    }
}

// What the rules say of a question, with the laws that this obeys: the lemma is cited here, so that a wrong `decide` is
// refused at its contract.
fn judged(q: Question) -> NarrowAnswer
    ensures answers { result ≡ depth_isolation q }
    ensures lawful { Lawful q result }
{
    by_number(judge(q))
}

// What the rules say, with the violation by its number.
fn by_number(ruling: Ruling) -> NarrowAnswer
    ensures { result ≡ by_number violation_number ruling }
{
    ruling.map_err(|violation| violation.number())
}

fn judge(q: Question) -> Ruling
    ensures { result ≡ ruling q }
{
    let Ok(depth) = u8::try_from(q.pc) else {
        return Err(DepthViolation::NoDepth);
    };
    if q.group == Group::Post {
        return on_post(depth, q.m);
    }
    on_op(depth, Code::try_from(q.ci)?, q)
}

fn on_op(depth: u8, code: Code, q: Question) -> Ruling
    requires { q.pc ≡ depth }
    ensures { result ≡ ruled q code q.group }
{
    match q.group {
        Group::Move => on_move(depth, q.a),
        Group::Load => on_load(depth, q.m),
        Group::Store => on_store(depth, code, q),
        Group::Call => on_call(depth),
        Group::Ret => on_ret(depth, q.a),
        _ => allow(depth, 0),
    }
}

// Allowed; this is the depth from then on.
fn allow(depth: u8, r: u32) -> Ruling
    ensures { result ≡ allowed depth r }
{
    Ok(Tags {
        pc: u32::from(depth),
        r,
    })
}

fn on_move(depth: u8, a: u32) -> Ruling
    ensures { result ≡ moving depth a }
{
    let _ = RegisterTag::try_from(a)?;
    allow(depth, a)
}

// What a load or an ordinary store may reach: a plain cell, or one of its own depth's frame.
#[derive(Clone, Copy)]
enum Target {
    Plain,
    Frame,
    SavedLink,
}

fn reach(depth: u8, m: u32) -> Result<Target, DepthViolation>
    ensures { result ≡ reaching depth (cell_tag m) }
{
    match CellTag::try_from(m)? {
        CellTag::Plain => Ok(Target::Plain),
        CellTag::Frame(d) if d == depth => Ok(Target::Frame),
        CellTag::SavedLink(d) if d == depth => Ok(Target::SavedLink),
        CellTag::Frame(_) | CellTag::SavedLink(_) => Err(DepthViolation::ForeignCell),
        CellTag::Empty => Err(DepthViolation::EmptyCell),
        CellTag::Code(_) => Err(DepthViolation::CodeCell),
    }
}

fn on_load(depth: u8, m: u32) -> Ruling
    ensures { result ≡ loading depth (reaching depth (cell_tag m)) }
{
    match reach(depth, m)? {
        Target::Plain | Target::Frame => allow(depth, 0),
        Target::SavedLink => allow(depth, RegisterTag::Link(depth.saturating_sub(1)).into()),
    }
}

fn on_store(depth: u8, code: Code, q: Question) -> Ruling
    ensures { result ≡ storing depth code (register_tag q.a) q.m }
{
    let source = RegisterTag::try_from(q.a)?;
    match code {
        Code::Ordinary => store_ordinary(depth, source, q.m),
        Code::Claiming => claim(depth, source, q.m),
        Code::Clearing => clear(depth, q.m),
    }
}

fn store_ordinary(depth: u8, source: RegisterTag, m: u32) -> Ruling
    ensures { result ≡ ordinary_store depth source (reaching depth (cell_tag m)) }
{
    match reach(depth, m)? {
        Target::Plain => store_in_plain(depth, source),
        Target::Frame | Target::SavedLink => store_in_frame(depth, source),
    }
}

fn claim(depth: u8, source: RegisterTag, m: u32) -> Ruling
    ensures { result ≡ claiming_store depth source m }
{
    if m == u32::from(CellTag::Empty) {
        store_in_frame(depth, source)
    } else {
        Err(DepthViolation::NotEmpty)
    }
}

fn clear(depth: u8, m: u32) -> Ruling
    ensures { result ≡ clearing_store depth (reaching depth (cell_tag m)) }
{
    match reach(depth, m) {
        Ok(Target::Frame | Target::SavedLink) => allow(depth, CellTag::Empty.into()),
        Ok(Target::Plain) | Err(_) => Err(DepthViolation::ForeignCell),
    }
}

fn store_in_plain(depth: u8, source: RegisterTag) -> Ruling
    ensures { result ≡ plain_store depth source }
{
    match source {
        RegisterTag::Data => allow(depth, CellTag::Plain.into()),
        RegisterTag::Link(_) => Err(DepthViolation::StrayLink),
    }
}

fn store_in_frame(depth: u8, source: RegisterTag) -> Ruling
    ensures { result ≡ frame_store depth source }
{
    match source {
        RegisterTag::Data => allow(depth, CellTag::Frame(depth).into()),
        RegisterTag::Link(made) if leads_back(made, depth) => {
            allow(depth, CellTag::SavedLink(depth).into())
        }
        RegisterTag::Link(_) => Err(DepthViolation::StrayLink),
    }
}

// A link leads back from the depth that its call went to, one more than where it was made.
fn leads_back(made: u8, depth: u8) -> bool
    ensures { result ≡ (made + 1 == depth) }
{
    made < depth && depth - made == 1
}

fn on_call(depth: u8) -> Ruling
    ensures { result ≡ calling depth }
{
    match depth.checked_add(1) {
        Some(below) => allow(below, RegisterTag::Link(depth).into()),
        None => Err(DepthViolation::TooDeep),
    }
}

fn on_ret(depth: u8, a: u32) -> Ruling
    ensures { result ≡ returning depth (register_tag a) }
{
    match RegisterTag::try_from(a) {
        Ok(RegisterTag::Link(made)) if leads_back(made, depth) => allow(made, 0),
        _ => Err(DepthViolation::NoReturn),
    }
}

fn on_post(depth: u8, m: u32) -> Ruling
    ensures { result ≡ posting depth m }
{
    if m == u32::from(CellTag::Plain) {
        allow(depth, 0)
    } else {
        Err(DepthViolation::ForeignCell)
    }
}
