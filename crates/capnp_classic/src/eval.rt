//! Expressions, and their values: trees whose shape is known at run time.
ghost use Rattle.std.specs.Prelude.{◌<◌, ◌≤◌};

use crate::benchmark::Benchmark;
use crate::eval_capnp::expression::{left, right};
use crate::eval_capnp::{Operation, evaluation_result, expression};
use crate::random::Random;
use capnp::message::{Reader, ReaderSegments};
use capnp::orphans::{Orphan, Orphanage};
use capnp::{Error, ErrorKind, Result};
use std::alloc::Global;

/// How deep expressions may be nested in the root.
const NESTING: u32 = 8;

/// The benchmark, which keeps nothing.
#[derive(Drop)]
pub struct Eval {}

impl Benchmark for Eval {
    fn new(_alloc: Global) -> Self {
        Eval {}
    }

    fn request(&mut self, random: &mut Random, objects: &mut Orphanage) -> Result<u64> {
        let (root, value) = add_expression(random, NESTING, objects)?;
        objects.set_root(root);
        Ok(value.cast_unsigned() as u64)
    }

    fn respond<S: ReaderSegments>(
        &mut self,
        request: &Reader<S>,
        objects: &mut Orphanage,
    ) -> Result<()> {
        let root: expression::Reader<'_, S> = request.get_root()?;
        let mut result = evaluation_result::Builder::new();
        result.set_value(value_of(&root, NESTING + 1)?);
        result.add_root(objects)
    }

    fn said<S: ReaderSegments>(&self, response: &Reader<S>) -> Result<u64> {
        let result: evaluation_result::Reader<'_, S> = response.get_root()?;
        Ok(result.get_value().cast_unsigned() as u64)
    }
}

// An expression of numbers that are drawn, and its value.
fn add_expression(
    random: &mut Random,
    nesting: u32,
    objects: &mut Orphanage,
) -> Result<(Orphan<expression::Owned>, i32)> {
    let mut made = expression::Builder::new();
    let operation = Operation::from_number(random.below(5) as u16);
    made.set_op(operation);
    let left = if random.below(8) < nesting {
        let (inner, value) = add_expression(random, nesting - 1, objects)?;
        made.set_left_expression(inner);
        value
    } else {
        let value = 1 + random.below(128) as i32;
        made.set_left_value(value);
        value
    };
    let right = if random.below(8) < nesting {
        let (inner, value) = add_expression(random, nesting - 1, objects)?;
        made.set_right_expression(inner);
        value
    } else {
        let value = 1 + random.below(128) as i32;
        made.set_right_value(value);
        value
    };
    Ok((made.add(objects)?, applied(operation, left, right)))
}

// The value of an expression that is nested less deep than this.
fn value_of<S: ReaderSegments>(read: &expression::Reader<'_, S>, nesting: u32) -> Result<i32> {
    if nesting == 0 {
        return Err(Error::from_kind(ErrorKind::NestingLimitExceeded));
    }
    let left = match read.get_left().which() {
        left::Which::Value(value) => value,
        left::Which::Expression(inner) => value_of(&inner?, nesting - 1)?,
        left::Which::NotInSchema(_) => 0,
    };
    let right = match read.get_right().which() {
        right::Which::Value(value) => value,
        right::Which::Expression(inner) => value_of(&inner?, nesting - 1)?,
        right::Which::NotInSchema(_) => 0,
    };
    Ok(applied(read.get_op(), left, right))
}

fn applied(operation: Operation, left: i32, right: i32) -> i32 {
    match operation {
        Operation::Add => left.wrapping_add(right),
        Operation::Subtract => left.wrapping_sub(right),
        Operation::Multiply => left.wrapping_mul(right),
        Operation::Divide => left.checked_div(right).unwrap_or(i32::MAX),
        Operation::Modulus => left.checked_rem(right).unwrap_or(i32::MAX),
        Operation::NotInSchema(_) => 0,
    }
}
