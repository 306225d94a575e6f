//! Streams that are public, as words give them: `1` or `2` (`docs/formats.md`, "Words of stt_secrets").
ghost use Rattle.std.specs.Prelude.{◌≡◌, map};
ghost use Rattle.secret_words.specs.Streams.{none_public, with_stream, with_named, streams_of};

use crate::ranges::number_of;
use secret_marks::PublicStreams;

/// No stream is public.
pub(crate) fn none_public() -> PublicStreams
    ensures { result ≡ none_public }
{
    PublicStreams {
        first: false,
        second: false,
    }
}

// The stream of this number is public besides those, where there is one and it isn't yet.
fn with_stream(streams: PublicStreams, number: u32) -> Option<PublicStreams>
    ensures { result ≡ with_stream streams number }
{
    match number {
        1 => {
            if streams.first {
                return None;
            }
            Some(PublicStreams {
                first: true,
                second: streams.second,
            })
        }
        2 => {
            if streams.second {
                return None;
            }
            Some(PublicStreams {
                first: streams.first,
                second: true,
            })
        }
        _ => None,
    }
}

// The stream that a text names is public besides those.
#[tactic(auto, unfolding(crate::specs::Streams::with_named))]
fn with_named(streams: PublicStreams, text: &str) -> Option<PublicStreams>
    ensures { result ≡ with_named streams text.now }
{
    match number_of(text, 10) {
        Some(number) => with_stream(streams, number),
        None => None,
    }
}

/// The streams that these texts name, None where one of them names none that may be.
pub(crate) fn read_streams(texts: &[&str]) -> Option<PublicStreams>
    ensures { result ≡ streams_of none_public (map (λ t. t.now) texts.now) }
{
    let mut streams = none_public();
    for text in texts {
        match with_named(streams, text) {
            Some(more) => streams = more,
            None => return None,
        }
    }
    Some(streams)
}
