use am_base::founding::Founding;
use am_base::name::Name;
use am_base::names::Names;
use am_group::event::{Act, Event};
use am_text_output::script::script_text;
use std::test::*;

/// The script of one event each.
const SCRIPT: &str = concat!(
    r#"{"play":{"events":["#,
    r#"{"do":"done","node":2,"req":7},"#,
    r#"{"do":"take","node":15},"#,
    r#"{"do":"join","node":3},"#,
    r#"{"do":"state","node":3},"#,
    r#"{"do":"leave","node":1},"#,
    r#"{"do":"reset","least":3,"node":1},"#,
    r#"{"do":"reset","least":16,"node":1,"resilience":0},"#,
    r#"{"do":"ask","node":0,"round":9},"#,
    r#"{"do":"giveup","name":4,"node":0},"#,
    r#"{"do":"giveup","life":16,"name":4,"node":0},"#,
    r#"{"do":"stop","node":4},"#,
    r#"{"do":"hear","node":6,"packet":70009},"#,
    r#"{"do":"cut","keep":1152,"node":7,"packet":8},"#,
    r#"{"do":"return","node":3}"#,
    r#"],"founders":[0,3,14],"pb_up_to":1024,"resilience":2,"window":1008}}"#
);

/// The act of a name.
fn event(byte: u8, act: Act) -> Event {
    Event {
        node: Name::of_byte(byte),
        act,
    }
}

/// A reset.
fn reset(least: u8, resilience: u8) -> Act {
    Act::Reset { least, resilience }
}

/// An event of each act but a send, in a group whose resilience is 2.
fn events() -> [Event; 14] {
    let cut = Act::Cut {
        packet: 8,
        keep: 1152,
    };
    [
        event(2, Act::Done(7)),
        event(15, Act::Take),
        event(3, Act::Join),
        event(3, Act::State),
        event(1, Act::Leave),
        event(1, reset(3, 2)),
        event(1, reset(16, 0)),
        event(0, Act::Ask(9)),
        event(0, Act::GiveUp(Name::of_byte(4))),
        event(0, Act::GiveUp(Name::of_byte(244))),
        event(4, Act::Stop),
        event(6, Act::Hear(70_009)),
        event(7, cut),
        event(19, Act::Return),
    ]
}

#[test]
fn each_act_in_a_script(rt: HostRuntime) -> Result<(), Fail> {
    let founders = Names::of_mask(1 << 14 | 1 << 3 | 1);
    let founding = Founding::new(founders, 2, 1008, 1024).ok_or("a founding")?;
    let text = script_text(rt.alloc(), &founding, &events())?;
    assert!(rt; text.as_str() == SCRIPT, "{text}");
    Ok(())
}
