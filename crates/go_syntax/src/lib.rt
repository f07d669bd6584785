//! Syntax trees of Go source: copies, depth, and places in a text.
#![tactic(auto)]

pub mod copy_exprs;
pub mod copy_stmts;
mod copy_types;

pub use copy_exprs::copy_expr;
pub use copy_stmts::copy_stmt;
pub use go_depth::depth;
pub use go_tree::{
    Arm, ArmList, BinOp, Block, Case, CaseList, Comment, ConstDecl, ConstSpec, ConstSpecList, Decl,
    DeclList, Elem, ElemList, Expr, ExprList, FieldSpec, FieldSpecList, FileTree, FuncDecl,
    INLINE_BYTES, ImportDecl, ImportDeclList, ImportSpec, ImportSpecList, MAX_FILE_BYTES, Name,
    NameAt, NameAtList, NoMemory, Param, ParamList, Place, RangeLeft, Receiver, Rest, Sig, Span,
    Spelling, Stmt, StmtList, Text, Token, TokenKind, TypeDecl, TypeExpr, TypeSpec, TypeSpecList,
    UnOp, Value, VarDecl, VarSpec, VarSpecList,
};
pub use text_places::place;
