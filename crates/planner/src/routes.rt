// The route of each row of a lost data disk, a row set or a diagonal, with the rows that take a
// diagonal as a word.
ghost use Rattle.std.specs.Prelude.{◌≡◌, ◌≢◌, ◌+◌, ◌^◌, ◌≤◌, ◌<◌, length, get_or, set, take, replicate, map, eqb};
ghost use Rattle.liberation.specs.Plans.{diagonals, word_from};
ghost use Rattle.planner.specs.Route.{route_number};

use parity_sets::MAX_WIDTH;
use refusals::Array;

// What a row takes.
#[derive(Clone, Copy, Debug, PartialEq, Eq)]
pub enum Route {
    Undecided,
    Row,
    Diagonal,
}

// A route for each row of an array, and the rows with a diagonal as a word, bit i set if row i takes
// one.
#[derive(Clone, Copy)]
pub struct Routes {
    array: Array,
    routes: [Route; MAX_WIDTH],
    word: u32,
    ghost long: { length routes ≡ 31 },
    ghost word_is: { word ≡ word_from 0 (take array.width (map route_number routes)) },
}

impl Routes {
    ghost use Rattle.planner.specs.RouteRecords.{rows_in, Becomes};

    // The same route for each row, which is no diagonal.
    pub fn all(array: Array, route: Route) -> Routes
        requires { route_number route ≢ 2 }
        ensures { (result.array ≡ array) × (rows_in result ≡ replicate array.width (route_number route)) }
    {
        Routes {
            array,
            routes: [route; MAX_WIDTH],
            word: 0,
        }
    }

    // The array whose rows these are.
    pub fn array(&self) -> Array
        ensures { result ≡ self.now.array }
    {
        self.array
    }

    // The rows that take a diagonal.
    pub fn word(&self) -> u32
        ensures { result ≡ word_from 0 (rows_in self.now) }
    {
        self.word
    }

    // How many rows take a diagonal.
    pub fn diagonals(&self) -> usize
        ensures { result ≡ diagonals (rows_in self.now) }
    {
        self.word.count_ones() as usize
    }

    // Does a row take a diagonal?
    pub fn takes_diagonal(&self, row: usize) -> bool
        requires { row < self.now.array.width }
        ensures { result ≡ eqb (get_or (rows_in self.now) row 0) 2 }
    {
        match self.routes[row] {
            Route::Diagonal => true,
            Route::Undecided | Route::Row => false,
        }
    }

    // Is a row undecided?
    pub fn is_undecided(&self, row: usize) -> bool
        requires { row < self.now.array.width }
        ensures { result ≡ eqb (get_or (rows_in self.now) row 0) 0 }
    {
        match self.routes[row] {
            Route::Undecided => true,
            Route::Diagonal | Route::Row => false,
        }
    }

    // The row takes a diagonal.
    pub fn take_diagonal(&mut self, row: usize)
        requires { row < self.old.array.width }
        ensures { Becomes self.old self.new (set (rows_in self.old) row 2) }
    {
        self.routes[row] = Route::Diagonal;
        self.word |= 1 << row;
    }

    // A row without a diagonal takes its row set.
    pub fn take_row(&mut self, row: usize)
        requires { (row < self.old.array.width) × (get_or (rows_in self.old) row 0 ≢ 2) }
        ensures { Becomes self.old self.new (set (rows_in self.old) row 1) }
    {
        self.routes[row] = Route::Row;
    }
}
