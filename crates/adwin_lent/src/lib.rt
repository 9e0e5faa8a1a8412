// The drift window lent for update.
#![tactic(auto)]

ghost use Rattle.std.specs.Prelude.{◌≡◌, false};
ghost use Rattle.float.specs.Order.{is_finite};
ghost use Rattle.adwin.specs.Window.{update_of};
ghost use Rattle.adwin.specs.View.{number_of, outcome_with, told, view};

use adwin::{Adwin, Full, Updated, Verdict};

// One value more in a window that is lent: it is read, updated by value, and stored back.
pub fn update(window: &mut Adwin, value: f64) -> Result<Verdict, Full>
    ensures window_after { outcome_with result window.new ≡ update_of (view window.old) value }
    ensures refused { number_of result ≡ 8 → window.new ≡ window.old }
    ensures ignored { is_finite value ≡ false → window.new ≡ window.old }
{
    let done = window.update(value);
    *window = done.window;
    done.answer
}

// The same of a window by value, which it lends.
pub fn updated(mut window: Adwin, value: f64) -> Updated
    ensures result_value { told result ≡ update_of (view window) value }
    ensures refused { number_of result.answer ≡ 8 → result.window ≡ window }
    ensures ignored { is_finite value ≡ false → result.window ≡ window }
{
    let answer = update(&mut window, value);
    Updated { answer, window }
}
