// "32 zeros, 32 hundreds, delta 0.002: alarm on the 64th."
use adwin::Adwin;
use std::io;

// Prints the number of every value on which the alarm rings.
pub fn zeros_then_hundreds(rt: &impl Print) -> io::Result<()> {
    let mut window = Adwin::new(0.002);
    for n in 1..=64 {
        let value = if n <= 32 { 0.0 } else { 100.0 };
        let updated = window.update(value);
        window = updated.window;
        if updated.rings() {
            println!(rt; "alarm on {n}")?;
        }
    }
    Ok(())
}
