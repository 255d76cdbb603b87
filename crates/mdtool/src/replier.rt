//! What replies to the commands of a script.

ghost use Rattle.std.specs.Prelude.{ℕ, List, IfOk, string_bytes};
ghost use Rattle.mdview.specs.Document.{Document};
ghost use Rattle.mdtool.specs.Replies.{ScriptTurn};
ghost use Rattle.mdtool.specs.ScriptEnds.{Replied};
ghost use Rattle.mdtool.specs.Views.{command_view};

use crate::command::Command;
use mdview::Preview;
use std::alloc::{AllocError, Global};

/// What replies to the commands of a script.
pub trait Replier {
    /// A command that is carried out where this is held, memory refused for it or not, is replied to by these bytes.
    ghost says: { Self → Document → ScriptTurn → List ℕ → Type 0 };

    /// Carries out one command and makes its reply.
    fn reply_to(
        &self,
        alloc: Global,
        preview: &mut Preview,
        command: &Command,
    ) -> Result<String, AllocError>
        ensures { IfOk result (λ reply. Replied (says self.now) preview.old (command_view command.now) (string_bytes reply) preview.new) };
}
