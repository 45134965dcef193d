use crate::{Event, Machine};
use std::test::Fail;

#[test]
fn events_out_of_order_are_handed_back(rt: HostRuntime) -> Result<(), Fail> {
    let mut machine: Machine<u8> = Machine::new(rt.alloc(), 2, 2)?;
    assert!(rt; machine.step(Event::Claim(0)).is_ok() && machine.step(Event::Claim(1)).is_ok());
    assert!(rt; matches!(machine.step(Event::ClaimPast(0)), Err(Event::ClaimPast(0))));
    assert!(rt;
        machine.step(Event::Lay(1, b'b')).is_ok() && machine.step(Event::Publish(1)).is_ok()
    );
    assert!(rt; matches!(machine.step(Event::Publish(0)), Err(Event::Publish(0))));
    assert!(rt;
        machine.step(Event::Lay(0, b'a')).is_ok() && machine.step(Event::Publish(0)).is_ok()
    );
    assert!(rt; machine.step(Event::ClaimPast(0)).is_ok());
    let done = machine.done();
    assert!(rt; done);
    if done {
        let pieces = machine.into_pieces();
        assert!(rt; pieces.as_slice() == [b'a', b'b'].as_slice());
    }
    Ok(())
}
