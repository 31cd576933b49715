use crate::{Clock, StepClock, SystemClock};
use hr_base::{LAST_MOMENT, Moment};

#[test]
fn a_clock_in_memory_goes_on_by_its_step_up_to_the_last_moment(rt: HostRuntime) {
    let mut clock = StepClock::new(Moment(LAST_MOMENT - 70), 60);
    for seconds in [LAST_MOMENT - 70, LAST_MOMENT - 10, LAST_MOMENT, LAST_MOMENT] {
        assert_eq!(rt; clock.now().0, seconds);
    }
}

#[test]
fn the_clock_of_the_system_is_past_2025_and_never_goes_back(rt: HostRuntime) {
    let mut clock = SystemClock::new(&rt);
    let first = clock.now();
    assert!(rt; first.0 > 1_735_689_600);
    assert!(rt; clock.now().0 >= first.0);
}
