//! Declarations of functions and methods (Go specification, Function declarations, Method declarations).

ghost use Rattle.std.specs.Prelude.{◌≡◌, ◌++◌, OnOk};
ghost use Rattle.std.specs.Option.{option_map};
ghost use Rattle.go_layout.specs.FileLayout.{func_layout, pointer_layout, receiver_layout};
ghost use Rattle.go_layout.specs.Layouts.{text_of};
ghost use Rattle.go_tree.specs.FileView.{func_of, receiver_of};

use crate::parts::{write_if, write_name, write_text};
use crate::stmts::write_block;
use crate::types::{write_param_name, write_sig};
use go_tree::{FuncDecl, NoMemory, Receiver};

pub(crate) fn write_func(out: &mut Vec<u8>, decl: &FuncDecl) -> Result<(), NoMemory>
    ensures { OnOk result (out.new.items ≡ out.old.items ++ text_of (func_layout (func_of decl.now))) }
{
    write_text(out, b"func ")?;
    write_receiver(out, &decl.receiver)?;
    write_name(out, &decl.name)?;
    write_sig(out, &decl.sig)?;
    write_text(out, b" ")?;
    write_block(out, &decl.body, b"")
}

/// The receiver of a method, where there is one.
fn write_receiver(out: &mut Vec<u8>, receiver: &Option<Receiver>) -> Result<(), NoMemory>
    ensures { OnOk result (out.new.items
        ≡ out.old.items ++ text_of (receiver_layout (option_map receiver_of receiver.now))) }
{
    match receiver {
        None => Ok(()),
        Some(receiver) => {
            write_text(out, b"(")?;
            write_param_name(out, &receiver.name)?;
            write_pointer(out, receiver.pointer)?;
            write_name(out, &receiver.of)?;
            write_text(out, b") ")
        }
    }
}

fn write_pointer(out: &mut Vec<u8>, pointer: bool) -> Result<(), NoMemory>
    ensures { OnOk result (out.new.items ≡ out.old.items ++ text_of (pointer_layout pointer)) }
{
    write_if(out, pointer, b"*")
}
