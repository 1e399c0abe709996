//! Gates, which may hold a server back.

use std::sync::Wait;

/// A gate is called before and after each request that a server submits. A test can hold servers back by it.
pub trait Gate {
    /// It is called before an element's request with this number is submitted.
    fn before<R: Wait>(&self, rt: &R, element: u16, number: u64);

    /// It is called after the request is answered or refused.
    fn after<R: Wait>(&self, rt: &R, element: u16, number: u64);
}

/// The gate that holds nobody back.
#[derive(Clone, Copy)]
pub struct Open;

impl Gate for Open {
    fn before<R: Wait>(&self, _rt: &R, _element: u16, _number: u64) {}

    fn after<R: Wait>(&self, _rt: &R, _element: u16, _number: u64) {}
}
