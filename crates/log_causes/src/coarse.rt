//! Replies of which a log keeps one word.

ghost use Rattle.std.specs.Prelude.{◌≡◌};
ghost use Rattle.log_causes.specs.Coarse.{coarse_count, is_coarse, is_coarse_entry};

use log_line::LogEntry;

// Whether words are one word of a reply, which is judged by it alone.
#[tactic(auto, unfolding(crate::specs::Coarse::is_coarse))]
fn is_coarse(words: &str) -> bool
    ensures { result ≡ is_coarse words.now }
{
    matches!(words, "served" | "denied" | "refused" | "lost")
}

// Whether a log keeps one word of the reply of an entry.
#[tactic(auto, unfolding(crate::specs::Coarse::is_coarse_entry))]
fn is_coarse_entry(entry: &LogEntry) -> bool
    ensures { result ≡ is_coarse_entry entry.now }
{
    is_coarse(entry.line.reply.as_str())
}

/// Returns how many replies the log keeps one word of: they are judged by it alone.
#[tactic(auto, unfolding(crate::specs::Coarse::coarse_count))]
pub fn coarse_count(entries: &[LogEntry]) -> u64
    ensures { result ≡ coarse_count entries.now }
{
    let mut count = 0;
    for entry in entries {
        if is_coarse_entry(entry) {
            count += 1;
        }
    }
    count
}
