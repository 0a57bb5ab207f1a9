//! Making the parts of a tree.
ghost use Rattle.std.specs.Prelude.{◌≡◌, map, IfOk};
ghost use Rattle.epl_syntax.specs.Tree.{Unary, Binary, Index, ListOf, Apply, expression, expressions, If, While};
ghost use Rattle.epl_syntax.specs.Tree.{With, statement, statements};

use epl_syntax::{Builtin, Expr, Name, Operator, Prefix, Stmt};
use std::alloc::{AllocError, Global};

pub(crate) fn unary(alloc: Global, prefix: Prefix, of: Expr, place: u32) -> Result<Expr, AllocError>
    ensures { IfOk result (λ e. expression e ≡ Unary prefix (expression of) place) }
{
    let of = Box::new(alloc, of)?;
    Ok(Expr::Unary { prefix, of, place })
}

pub(crate) fn binary(
    alloc: Global,
    operator: Operator,
    left: Expr,
    right: Expr,
    place: u32,
) -> Result<Expr, AllocError>
    ensures { IfOk result (λ e. expression e ≡ Binary operator (expression left) (expression right) place) }
{
    let left = Box::new(alloc, left)?;
    let right = Box::new(alloc, right)?;
    Ok(Expr::Binary {
        operator,
        left,
        right,
        place,
    })
}

pub(crate) fn index(alloc: Global, of: Expr, at: Expr, place: u32) -> Result<Expr, AllocError>
    ensures { IfOk result (λ e. expression e ≡ Index (expression of) (expression at) place) }
{
    let of = Box::new(alloc, of)?;
    let at = Box::new(alloc, at)?;
    Ok(Expr::Index { of, at, place })
}

pub(crate) fn list_of(items: Vec<Expr>, place: u32) -> Expr
    ensures { expression result ≡ ListOf (expressions items.items) place }
{
    Expr::ListOf { items, place }
}

pub(crate) fn apply(builtin: Builtin, args: Vec<Expr>, place: u32) -> Expr
    ensures { expression result ≡ Apply builtin (expressions args.items) place }
{
    Expr::Apply {
        builtin,
        args,
        place,
    }
}

pub(crate) fn make_if(test: Expr, so: Vec<Stmt>, otherwise: Vec<Stmt>, place: u32) -> Stmt
    ensures { statement result ≡ If (expression test) (statements so.items) (statements otherwise.items) place }
{
    Stmt::If {
        test,
        so,
        otherwise,
        place,
    }
}

pub(crate) fn make_while(test: Expr, body: Vec<Stmt>, place: u32) -> Stmt
    ensures { statement result ≡ While (expression test) (statements body.items) place }
{
    Stmt::While { test, body, place }
}

pub(crate) fn make_with(monitor: Name, body: Vec<Stmt>, place: u32) -> Stmt
    ensures { statement result ≡ With monitor (statements body.items) place }
{
    Stmt::With {
        monitor,
        body,
        place,
    }
}
