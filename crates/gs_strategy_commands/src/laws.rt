//! A law of the two commands.

ghost use Rattle.std.specs.Prelude.{◌≡◌, ℕ, List};
ghost use Rattle.gs_file.specs.declared.version.Version.TheVariants.{Two};
ghost use Rattle.gs_reply.specs.Replies.{Reply, Prints};
ghost use Rattle.gs_strategy.specs.{Confirmed.{IsConfirmed}, Laws.{IsStrategy}, Values.{Strategy}};
ghost use Rattle.gs_strategy_commands.specs.{Certificates.{IsCertified}, Verifying.{Verifies}};

/// The two lines that `certify` prints for a confirmed strategy are verified: `verify` prints a text for them, and refuses none.
pub fn printed_lines_are_verified()
    ensures { (s : Strategy) (text : List ℕ) (reply : Reply) → IsStrategy Two s → IsConfirmed s → IsCertified s text → Verifies text reply
        → (lines : List ℕ) × (reply ≡ Prints lines) }
{}
