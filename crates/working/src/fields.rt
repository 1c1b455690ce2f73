// A car by the numbers of its C line, as a sheet and callers in C hand it in.
ghost use Rattle.std.specs.Prelude.{◌≡◌, length};
ghost use Rattle.car.specs.Car.{car_of};

use car::Car;
use heating::Density15;

// A car by the fourteen numbers of its C line.
pub fn car_of(numbers: &[u32]) -> Car
    requires { length numbers.now ≡ 14 }
    ensures { result ≡ car_of numbers.now }
{
    Car {
        number: numbers[0],
        kind: numbers[1],
        grade: numbers[2],
        stick: numbers[3],
        count: numbers[4],
        readings: [numbers[5], numbers[6], numbers[7], numbers[8]],
        water_level: numbers[9],
        temperature: numbers[10],
        density: Density15(numbers[11]),
        water: numbers[12],
        impurities: numbers[13],
    }
}
