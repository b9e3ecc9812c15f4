use chip_core::laws;
use core_rows::five::Five;

#[test]
fn the_laws_are_called() {
    laws::joined::<Five>();
    laws::stages::<Five>();
    laws::limits::<Five>();
    laws::events::<Five>();
}
