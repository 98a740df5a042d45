use std::test::Fail;
use teapot_tree::{Expr, Keyword, copy_exprs, keyword_of, same_exprs};

#[test]
fn words(rt: HostRuntime) {
    assert_eq!(rt;
        keyword_of(1, b"WR_FAULT".as_slice()),
        Some(Keyword::WrFault)
    );
    assert_eq!(rt; keyword_of(1, b"ForEach".as_slice()), None);
    assert_eq!(rt;
        keyword_of(2, b"ForEach".as_slice()),
        Some(Keyword::ForEach)
    );
}

#[test]
fn copies_of_an_expression(rt: HostRuntime) -> Result<(), Fail> {
    let copy = Expr::Number(7).copy(rt.alloc())?;
    assert!(rt; copy.same(&Expr::Number(7)));
    assert!(rt; !copy.same(&Expr::Number(8)));
    Ok(())
}

#[test]
fn copies_of_expressions(rt: HostRuntime) -> Result<(), Fail> {
    let copies = copy_exprs(rt.alloc(), &[Expr::Home, Expr::Src])?;
    assert!(rt; same_exprs(copies.items(), &[Expr::Home, Expr::Src]));
    Ok(())
}
