//! The states of a context (RFC 3095 4.3.2).

ghost use Rattle.std.specs.Prelude.{◌≡◌, ◌<◌, ◌^◌, true};
ghost use Rattle.std.specs.Option.{ForSome};
ghost use Rattle.std.proofs.Props.{props};
ghost use Rattle.rohc_chain.specs.Good.{IsGoodStatic, IsGoodDynamic};
ghost use Rattle.rohc_header.specs.Prepared.{IsPrepared};
ghost use Rattle.rohc_context.specs.Saved.{IsKept};
ghost use Rattle.rohc_context.specs.Previous.{fields_by, IsAlike};

use crate::reference::{Previous, Reference};
use crate::window::Window;
use rohc_header::{Prepared, Static};

/// What is kept of a context of profile 0x0001 in No Context.
#[derive(Clone, Copy)]
pub(crate) struct NoContext {
    /// The time of the last STATIC-NACK, in milliseconds.
    pub nacked: u64,
    ghost in_range: { nacked < 2 ^ 64 },
}

/// What is kept of a context in Static Context.
#[derive(Clone, Copy)]
pub(crate) struct StaticContext {
    /// The static part.
    pub fixed: Static,
    /// The reference that Full Context had, if the context fell from there.
    pub reference: Option<Reference>,
    /// The outcomes that make a NACK due, and those that lead to No Context.
    pub windows: (Window, Window),
    ghost good: { IsGoodStatic fixed },
    ghost kept: { ForSome reference (λ r. IsKept fixed r.moving r.saved) } by { Prim.hlevel props },
}

/// What is kept of a context in Full Context.
#[derive(Clone, Copy)]
pub(crate) struct FullContext {
    /// The static part.
    pub fixed: Static,
    /// The reference, against which packets are decoded.
    pub reference: Reference,
    /// What stays of headers with the reference's fields.
    pub prepared: Prepared,
    /// The previous reference, if the last packet left RND, NBO and stride as they were.
    pub previous: Option<Previous>,
    /// The outcomes that lead to Static Context, and a window that stays empty.
    pub windows: (Window, Window),
    ghost good: { IsGoodStatic fixed },
    ghost kept: { IsKept fixed reference.moving reference.saved } by { Prim.hlevel props },
    ghost stays: { IsPrepared fixed reference.moving prepared } by { Prim.hlevel props },
    ghost kept_before: { ForSome previous (λ p. IsKept fixed (fields_by reference.moving p) p.saved) } by { Prim.hlevel props },
    ghost near: { ForSome previous (λ p. p.alike ≡ true → IsAlike reference p) } by { Prim.hlevel props },
    ghost one_window: { windows.1.length ≡ 0 },
}

/// The state of a context.
#[derive(Clone, Copy)]
pub(crate) enum State {
    /// Profile 0x0000.
    Plain,
    /// Profile 0x0001 in No Context.
    NoContext(NoContext),
    /// Profile 0x0001 in Static Context.
    Static(StaticContext),
    /// Profile 0x0001 in Full Context.
    Full(FullContext),
}
