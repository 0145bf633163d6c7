// The player for C (include/panel.h), in an archive of its own: firmware that records has no use for it, and its calls stay as small as they are.
#![tactic(auto)]

ghost use Rattle.std.specs.Prelude.{◌≡◌};
ghost use Rattle.carry.specs.Player.{play_call};

use calls::Done;

// Plays a packed list, from a reset, by value: C's memory may hold anything before it.
#[unsafe(no_mangle)]
pub extern "C" fn panel_play_value(bytes: &[u8]) -> Done
    ensures { result ≡ play_call bytes.now }
{
    carry::player::play(bytes)
}
