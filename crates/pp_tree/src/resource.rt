use crate::expr::Expr;
use pp_values::{Items, Text};

/// The lines of a resource, an override, defaults or a collector: `mode => '0644', * => $more`.
pub type Attributes = Items<Attribute>;

/// What stands before the kind of a resource.
#[derive(Clone, Copy, Debug, PartialEq, Eq)]
pub enum ResourceForm {
    /// `file { 'x': }`
    Plain,
    /// `@file { 'x': }`
    Virtual,
    /// `@@file { 'x': }`
    Exported,
}

/// `file { 'x': mode => '0644'; 'y': }`. The kind is as it is written, and may be `class`.
#[derive(Drop)]
pub struct Resource<E = Expr> {
    pub form: ResourceForm,
    pub kind: Text,
    pub bodies: Items<Body<E>>,
    pub at: u32,
}

/// A title and its attributes: `'x': mode => '0644'`.
#[derive(Drop)]
pub struct Body<E = Expr> {
    pub title: E,
    pub attributes: Items<Attribute<E>>,
    pub at: u32,
}

/// A line among attributes.
#[derive(Drop)]
pub enum Attribute<E = Expr> {
    Set(Setting<E>),
    Splat(Splat<E>),
}

/// `mode => '0644'`, or `require +> A['x']` where `append` is true.
#[derive(Drop)]
pub struct Setting<E = Expr> {
    pub name: Text,
    pub append: bool,
    pub at: u32,
    pub value: E,
}

/// `* => $more`
#[derive(Drop)]
pub struct Splat<E = Expr> {
    pub value: E,
    pub at: u32,
}

/// `File['x', 'y']`
#[derive(Drop)]
pub struct Reference<E = Expr> {
    pub kind: Text,
    pub args: Items<E>,
    pub at: u32,
}

/// `File['x'] { mode => '0644' }`
#[derive(Drop)]
pub struct Override<E = Expr> {
    pub target: Reference<E>,
    pub attributes: Items<Attribute<E>>,
    pub at: u32,
}

/// `File { mode => '0644' }`
#[derive(Drop)]
pub struct Defaults<E = Expr> {
    pub kind: Text,
    pub attributes: Items<Attribute<E>>,
    pub at: u32,
}
