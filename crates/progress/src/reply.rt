// A reply in the reply memory: three bytes, its number and its value, the high byte first.
ghost use Rattle.std.specs.Prelude.{◌≡◌, ◌+◌, ◌*◌, ◌≤◌, length};
ghost use Rattle.paper.specs.Width.{reply_width};
ghost use Rattle.progress.specs.Reply.{replied};

use kernel::width;
use paper::Answer;

// Reply k is written behind the k replies before it.
pub fn write(replies: &mut [u8], k: usize, answer: Answer)
    requires { reply_width * k + reply_width ≤ length replies.old }
    ensures { replies.new ≡ replied replies.old (reply_width * k) answer }
{
    let at = width::REPLY * k;
    let [high, low] = answer.value.to_be_bytes();
    // Three stores: to copy a new array of three takes the processor twice as long.
    replies[at] = answer.number;
    replies[at + 1] = high;
    replies[at + 2] = low;
}
