// KJW: what a K panel does with a frame (document 01, "KJW (003)", and document 02, §6).
#![tactic(auto)]

ghost use Rattle.std.specs.Prelude.{◌≡◌};
ghost use Rattle.turns.specs.Turns.{Takes};
ghost use Rattle.kjw.specs.Orders.{turned_over, louder, softer, carried};
ghost use Rattle.kjw.specs.Replies.{noticed, reply_of, decided, turn_of};

use kjw_asks::{Fault, hear, letters_of};
use kjw_sets::{Order, State};
use kjw_tells::{Reply, send};
use kjw_values::value_of;
use panels::{KRecord, MOST_VOLUME};
use terms::{Answer, Outcome};

// What a panel does with what it heard.
#[derive(Clone, Copy)]
pub struct Decided {
    pub k: KRecord,
    pub answer: Answer,
    pub reply: Reply,
}

// A switch turned over.
#[tactic(auto, unfolding(crate::specs::Orders::turned_over))]
fn turn_over(v: u8) -> u8
    ensures { result ≡ turned_over v }
{
    u8::from(v == 0)
}

// A volume one higher, up to its most; one past that stays, so that `min` would not do.
#[tactic(auto, unfolding(crate::specs::Orders::louder))]
fn raise(v: u8) -> u8
    ensures { result ≡ louder v }
{
    if v < MOST_VOLUME { v + 1 } else { v }
}

// A volume one lower, down to 0.
#[tactic(auto, unfolding(crate::specs::Orders::softer))]
fn lower(v: u8) -> u8
    ensures { result ≡ softer v }
{
    v.saturating_sub(1)
}

// An order carried out.
#[tactic(auto, unfolding(crate::specs::Orders::carried))]
fn obey(k: KRecord, o: Order) -> KRecord
    ensures { result ≡ carried o k }
{
    match o {
        Order::SetPower(power) => KRecord { power, ..k },
        Order::TogglePower => KRecord {
            power: turn_over(k.power),
            ..k
        },
        Order::SetAudioMute(amut) => KRecord { amut, ..k },
        Order::ToggleAudioMute => KRecord {
            amut: turn_over(k.amut),
            ..k
        },
        Order::SetPictureMute(pmut) => KRecord { pmut, ..k },
        Order::TogglePictureMute => KRecord {
            pmut: turn_over(k.pmut),
            ..k
        },
        Order::SetVolume(volume) => KRecord { volume, ..k },
        Order::Louder => KRecord {
            volume: raise(k.volume),
            ..k
        },
        Order::Softer => KRecord {
            volume: lower(k.volume),
            ..k
        },
        Order::SetInput(kind, port) => KRecord { kind, port, ..k },
        Order::SetScene(scene) => KRecord { scene, ..k },
        Order::Pass | Order::Ask(_) => k,
    }
}

// A notice where the value changed.
#[tactic(auto, using(laws::proofs::Library::same_pointwise), unfolding(crate::specs::Replies::noticed))]
fn notice_of(s: State, before: KRecord, after: KRecord) -> Reply
    ensures { result ≡ noticed s before after }
{
    if value_of(s, before) == value_of(s, after) {
        return Reply::Accepted;
    }
    Reply::Changed(s)
}

// The notice of a volume. One that stays is told at once: to compare its digits both would be written first.
#[tactic(auto, using(laws::proofs::Lists::same_self), unfolding(crate::specs::Replies::noticed, kjw_values::specs::Values::value_of))]
fn volume_notice(before: KRecord, after: KRecord) -> Reply
    ensures { result ≡ noticed State.Volume before after }
{
    if before.volume != after.volume {
        return notice_of(State::Volume, before, after);
    }
    Reply::Accepted
}

// The reply to an order: a scene and a pass have no notice, and an enquiry is answered with its state.
#[tactic(auto, unfolding(crate::specs::Replies::reply_of))]
fn reply_of(o: Order, before: KRecord, after: KRecord) -> Reply
    ensures { result ≡ reply_of o before after }
{
    let notice = |s| notice_of(s, before, after);
    match o {
        Order::SetPower(_) | Order::TogglePower => notice(State::Power),
        Order::SetAudioMute(_) | Order::ToggleAudioMute => notice(State::AudioMute),
        Order::SetPictureMute(_) | Order::TogglePictureMute => notice(State::PictureMute),
        Order::SetVolume(_) | Order::Louder | Order::Softer => volume_notice(before, after),
        Order::SetInput(_, _) => notice(State::Input),
        Order::SetScene(_) | Order::Pass => Reply::Accepted,
        Order::Ask(s) => Reply::Value(s),
    }
}

// What the panel does with what it heard.
#[tactic(auto, unfolding(crate::specs::Replies::decided))]
fn decide(k: KRecord, heard: Result<Order, Fault>) -> Decided
    ensures { result ≡ decided k heard }
{
    match heard {
        Ok(o) => {
            let after = obey(k, o);
            Decided {
                k: after,
                answer: Answer::Done,
                reply: reply_of(o, k, after),
            }
        }
        Err(Fault::Refused(answer)) => Decided {
            k,
            answer,
            reply: Reply::Silent,
        },
        Err(Fault::NotUnderstood) => Decided {
            k,
            answer: Answer::NotUnderstood,
            reply: Reply::Rejected,
        },
    }
}

// A message on the KJW link of a K panel.
#[tactic(auto, using(turns::proofs::Turns::takes_small))]
pub fn take_frame(k: KRecord, m: &[u8], area: &mut [u8]) -> Outcome<KRecord>
    ensures { Takes (turn_of m.now) k area.old result.after result.answer result.len area.new }
{
    if area.len() < 512 {
        return Outcome::refused(k, Answer::AreaTooSmall);
    }
    let turn = decide(k, hear(m));
    let len = send(turn.reply, turn.k, letters_of(m), area);
    Outcome {
        after: turn.k,
        answer: turn.answer,
        len,
    }
}
