//! The image that a form is compiled to.

ghost use Rattle.std.specs.Prelude.{◌≡◌, ◌+◌, IfOk};
ghost use Rattle.bm_image.specs.Images.{plain_image};
ghost use Rattle.fort_forms.specs.Forms.{IsForm};
ghost use Rattle.fort_driver.specs.Compiled.{form_image};

use bm_image::{FnRec, Image};
use bm_isa::Instr;
use c_library::LibFn;
use fc_base::NoMemory;
use fort_forms::Form;
use std::alloc::Global;

/// The weight of the form's main: nine nodes, a return among the joins, no register variable.
const WEIGHT: u32 = 672;

/// The image of the form: the checked call with the array's place, the byte, the count and the array's size, then the
/// result.
pub fn compile(alloc: Global, form: &Form) -> Result<Image, NoMemory>
    requires { IsForm form.now }
    ensures { IfOk result (λ image. plain_image image ≡ form_image form.now) }
{
    let main = FnRec {
        first: 0,
        params: 0,
        regs: 4,
        weight: WEIGHT,
        frame: (form.size + 1).div_ceil(16) * 16,
    };
    Ok(Image {
        functions: vec![in alloc; main]?,
        code: vec![in alloc;
            Instr::Slot { to: 0, offset: 0 },
            Instr::Const {
                to: 1,
                number: u64::from(form.byte)
            },
            Instr::Const {
                to: 2,
                number: u64::from(form.count)
            },
            Instr::Const {
                to: 3,
                number: u64::from(form.size)
            },
            Instr::Argument { from: 0, slot: 0 },
            Instr::Argument { from: 1, slot: 1 },
            Instr::Argument { from: 2, slot: 2 },
            Instr::Argument { from: 3, slot: 3 },
            Instr::Host {
                to: 0,
                call: LibFn::Memset.host_number(true),
                count: 4
            },
            Instr::Const {
                to: 0,
                number: u64::from(form.result)
            },
            Instr::Return { from: 0 },
        ]?,
        bytes: Vec::new(alloc),
        entry: 0,
    })
}
