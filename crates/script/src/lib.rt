// A whole script carried on: bytes of any length go in, lines of text come out.
#![tactic(auto)]

pub mod run;

ghost use Rattle.std.specs.Prelude.{◌≡◌};
ghost use Rattle.script.specs.Script.{going_on};

use kernel::Kernel;

// Where a script stands. While it goes on, each record goes to the kernel.
#[derive(Clone, Copy)]
pub enum Stand {
    GoingOn,
}

// A script under way, as a program hands it on: the kernel that the records so far have left, and where it stands.
#[derive(Clone, Copy)]
pub struct Script {
    pub kernel: Kernel,
    pub stands: Stand,
}

impl Script {
    // A script that begins on this kernel.
    pub fn begin(kernel: Kernel) -> Script
        ensures { result ≡ going_on kernel.state }
    {
        Script {
            kernel,
            stands: Stand::GoingOn,
        }
    }
}
